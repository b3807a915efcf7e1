//! Taps. A writer publishes the summaries of a flight at a tap, and readers load them.

ghost use Rattle.std.specs.Prelude.{◌≡◌};

use crate::views::{TapRule, TapView};
use atomic_table::{Seat, Table};
use coverage_check::Mission;
use frame_model::Reading;
use std::alloc::Global;

/// A tap of a flight: the shared word that encodes the summary of the flight, and the flight's mission. Threads share
/// a tap by reference.
pub struct Tap<'a> {
    pub(crate) mission: &'a Mission,
    pub(crate) table: Table<(), TapView, Mission, TapRule, Global>,
    ghost key: { table.shared.key ≡ mission.now },
    ghost words: { table.shared.table_id.words ≡ 1 },
    ghost slots: { table.shared.table_id.slots ≡ 0 },
}

// A derived drop is laid out in the proof of each function that drops the value, and this one is a call.
impl Drop for Tap<'_> {
    fn drop(self) {
        let Tap {
            mission: _,
            table: _,
        } = self;
    }
}

/// The only writer of a tap. For the next summary it records the number of rows published so far, the number of
/// reconfigurations that begin in these rows, and the reading of these rows.
pub struct Writer {
    pub(crate) published: u32,
    pub(crate) begun: u32,
    pub(crate) reading: Reading,
    pub(crate) inner: Seat<(), TapView>,
}

// A derived drop is laid out in the proof of each function that drops the value, and this one is a call.
impl Drop for Writer {
    fn drop(self) {
        let Writer {
            published: _,
            begun: _,
            reading: _,
            inner: _,
        } = self;
    }
}

/// A reader of a tap.
pub struct Reader {
    pub(crate) inner: Seat<(), TapView>,
}

// A derived drop is laid out in the proof of each function that drops the value, and this one is a call.
impl Drop for Reader {
    fn drop(self) {
        let Reader { inner: _ } = self;
    }
}
