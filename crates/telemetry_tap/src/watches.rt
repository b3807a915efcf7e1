//! Watches, which take the rows of a flight while it runs.

ghost use Rattle.std.specs.Prelude.{◌≡◌, ◌+◌};
ghost use Rattle.telemetry_tap.specs.Summaries.{IsRowAt};
ghost use Rattle.telemetry_tap.specs.Taps.{IsWriterOf};

use crate::taps::{Tap, Writer};
use scram_types::Row;

/// A receiver of the rows of a mission while the mission is flown. A watch takes each row once and in order.
pub trait Watch: Drop {
    ghost use Rattle.std.specs.Prelude.{ℕ};
    ghost use Rattle.coverage_check.specs.Missions.{MissionParts};

    /// The mission whose rows the watch takes.
    ghost watched: { Self → MissionParts };

    /// The number of rows that the watch has taken.
    ghost taken: { Self → ℕ };

    /// Takes `row`, which must be the next row of the mission.
    fn row(&mut self, row: &Row)
        requires { IsRowAt (watched self.old) (taken self.old) row.now }
        ensures watched { watched self.new ≡ watched self.old }
        ensures taken { taken self.new ≡ taken self.old + 1 };
}

/// A watch that publishes the summary after each row at a tap.
#[derive(Drop)]
pub struct Publisher<'t, 'a> {
    pub tap: &'t Tap<'a>,
    pub writer: Writer,
    ghost writes: { IsWriterOf tap.now writer },
}

impl<'t, 'a> Watch for Publisher<'t, 'a> {
    ghost use Rattle.telemetry_tap.specs.Taps.{rows_published, tap_mission};

    ghost watched = { λ publisher. tap_mission publisher.tap.now };

    ghost taken = { λ publisher. rows_published publisher.writer };

    fn row(&mut self, row: &Row) {
        self.tap.publish(&mut self.writer, row);
    }
}
