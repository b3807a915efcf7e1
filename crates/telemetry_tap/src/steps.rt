//! The steps of writers and readers at a tap.

ghost use Rattle.std.specs.Prelude.{◌≡◌, ◌≤◌, ◌+◌};
ghost use Rattle.telemetry_tap.specs.Summaries.{IsRowAt, summary_after};
ghost use Rattle.telemetry_tap.specs.Taps.{IsReaderOf, IsWriterOf, loads_of, rows_published, rows_seen, tap_mission};
ghost use Rattle.telemetry_tap.specs.Words.{FitsWord};

use crate::progress::{begun_with, running_number, up_in};
use crate::summaries::{Summary, summary_decode, summary_encode};
use crate::taps::{Reader, Tap, Writer};
use crate::views::{GivesReader, PublishesRow, ReadsSummary};
use coverage_check::Mission;
use frame_model::laws::beginnings_are_read;
use frame_model::{read_row, running};
use scram_types::Row;

impl<'a> Tap<'a> {
    /// Returns the mission of the tap.
    pub fn mission(&self) -> &Mission
        ensures { result.now ≡ tap_mission self.now }
    {
        self.mission
    }

    /// Publishes the summary after `row`, which must be the next row of the mission. This method does not allocate
    /// and does not block.
    pub fn publish(&self, writer: &mut Writer, row: &Row)
        requires writer { IsWriterOf self.now writer.old }
        requires row { IsRowAt (tap_mission self.now) (rows_published writer.old) row.now }
        ensures writer { IsWriterOf self.now writer.new }
        ensures published { rows_published writer.new ≡ rows_published writer.old + 1 }
    {
        self.mission.holds();
        beginnings_are_read();
        let spec = self.mission.spec();
        let begun = writer.begun + begun_with(spec, writer.reading, &row.acts);
        let (reading, _) = read_row(spec, writer.reading, writer.published, &row.acts);
        let summary = Summary {
            frames: writer.published + 1,
            running: running_number(running(spec, &row.acts)),
            up: up_in(row),
            begun,
        };
        self.table
            .shared
            .store::<PublishesRow>(&mut writer.inner, 0, summary_encode(&summary));
        writer.published += 1;
        writer.begun = begun;
        writer.reading = reading;
    }

    /// Loads the word and returns the summary that the word encodes. The summary has at least as many rows as the
    /// last summary that this reader has seen. This method does not allocate and does not block.
    pub fn read(&self, reader: &mut Reader) -> Summary
        requires reader { IsReaderOf self.now reader.old }
        ensures reader { IsReaderOf self.now reader.new }
        ensures seen { rows_seen reader.old ≤ rows_seen reader.new }
        ensures within { rows_seen reader.new ≤ (tap_mission self.now).script.frames }
        ensures summary { result ≡ summary_after (tap_mission self.now) (rows_seen reader.new) }
        ensures fits { FitsWord result }
        ensures loads { loads_of reader.new ≡ loads_of reader.old + 1 }
    {
        self.mission.holds();
        let word = self.table.shared.load::<ReadsSummary>(&mut reader.inner, 0);
        summary_decode(word)
    }

    /// Returns a new reader, which has seen all rows that the writer has published. This method does not allocate and
    /// does not block.
    pub fn note(&self, writer: &mut Writer) -> Reader
        requires writer { IsWriterOf self.now writer.old }
        ensures writer { IsWriterOf self.now writer.new }
        ensures published { rows_published writer.new ≡ rows_published writer.old }
        ensures reader { IsReaderOf self.now result }
        ensures seen { rows_seen result ≡ rows_published writer.old }
    {
        let inner = self
            .table
            .shared
            .split_seat::<GivesReader>(&mut writer.inner);
        Reader { inner }
    }
}
