//! The opening of a tap.

ghost use Rattle.std.specs.Prelude.{◌≡◌, ◌≤◌, IfOk, OnOk, [], length};
ghost use Rattle.telemetry_tap.specs.Taps.{AreNewReaders, IsWriterOf, rows_published, tap_mission};

use crate::summaries::{NONE_RUNNING, Summary, summary_encode};
use crate::taps::{Reader, Tap, Writer};
use crate::views::{TapRule, TapView};
use atomic_table::Table;
use coverage_check::Mission;
use fault_script::walks::up_set_at;
use frame_model::Reading;
use frame_model::laws::beginnings_are_read;
use scram_types::NoMemory;
use std::alloc::Global;

impl<'a> Tap<'a> {
    /// Opens a tap for the flight of a mission, with a writer that has published no row and `readers` readers that
    /// have seen no row. There may be 0 to 8 readers.
    ///
    /// # Errors
    ///
    /// Returns an error if memory runs out.
    pub fn open(
        alloc: Global,
        mission: &'a Mission,
        readers: u32,
    ) -> Result<(Tap<'a>, Writer, Vec<Reader>), NoMemory>
        requires few { readers ≤ 8 }
        ensures mission { IfOk result (λ t. tap_mission t.0 ≡ mission.entry.now) }
        ensures writer { IfOk result (λ t. IsWriterOf t.0 t.1) }
        ensures published { IfOk result (λ t. rows_published t.1 ≡ 0) }
        ensures readers { IfOk result (λ t. AreNewReaders t.0 t.2.items) }
        ensures count { IfOk result (λ t. length t.2.items ≡ readers) }
    {
        let mut dealt = Vec::with_capacity(alloc, readers as usize)?;
        let (tap, mut writer) = Tap::lay(alloc, mission)?;
        tap.deal(readers, &mut writer, &mut dealt)?;
        Ok((tap, writer, dealt))
    }

    // Creates the tap and its writer, which has published no row. Returns an error only if memory runs out.
    fn lay(alloc: Global, mission: &'a Mission) -> Result<(Tap<'a>, Writer), NoMemory>
        ensures mission { IfOk result (λ t. tap_mission t.0 ≡ mission.entry.now) }
        ensures writer { IfOk result (λ t. IsWriterOf t.0 t.1) }
        ensures published { IfOk result (λ t. rows_published t.1 ≡ 0) }
    {
        mission.holds();
        beginnings_are_read();
        let first = Summary {
            frames: 0,
            running: NONE_RUNNING,
            up: up_set_at(mission.spec(), mission.script(), 0),
            begun: 0,
        };
        let (table, inner) = Table::<(), TapView, Mission, TapRule, Global>::of_words(
            alloc,
            &[summary_encode(&first)],
            mission,
        )?;
        let writer = Writer {
            published: 0,
            begun: 0,
            reading: Reading::Steady(mission.spec().start),
            inner,
        };
        Ok((Tap { mission, table }, writer))
    }

    // Appends `readers` new readers to `dealt`, each with a seat that is split off the writer's seat. Returns an
    // error only if memory runs out.
    fn deal(
        &self,
        readers: u32,
        writer: &mut Writer,
        dealt: &mut Vec<Reader>,
    ) -> Result<(), NoMemory>
        requires writer { IsWriterOf self.now writer.old }
        requires published { rows_published writer.old ≡ 0 }
        requires none { dealt.old.items ≡ [] }
        ensures writer { IsWriterOf self.now writer.new }
        ensures published { rows_published writer.new ≡ 0 }
        ensures readers { OnOk result (AreNewReaders self.now dealt.new.items) }
        ensures count { OnOk result (length dealt.new.items ≡ readers) }
    {
        for _i in 0..readers {
            dealt.push(self.note(writer))?;
        }
        Ok(())
    }
}
