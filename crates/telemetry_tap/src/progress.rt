//! The parts of a summary that change with a row.

ghost use Rattle.std.specs.Prelude.{◌≡◌, ◌≤◌};
ghost use Rattle.telemetry_tap.specs.Summaries.{begun_with, running_number};

use crate::summaries::NONE_RUNNING;
use frame_model::{Reading, runs};
use scram_types::{Act, ConfId, Row, Spec};

/// Returns the number of reconfigurations that begin with a row, which is 0 or 1. `reading` is the reading of the
/// preceding rows.
pub(crate) fn begun_with(spec: &Spec, reading: Reading, acts: &[Act; 8]) -> u32
    ensures same { result ≡ begun_with spec.now reading acts.now }
    ensures few { result ≤ 1 }
{
    match reading {
        Reading::Steady(c) => { if runs(spec, acts, c) { 0 } else { 1 } }
        Reading::Leaving(_, _) => 0,
    }
}

/// Returns the number by which a summary names a configuration, or `NONE_RUNNING` if `conf` is `None`.
pub(crate) fn running_number(conf: Option<ConfId>) -> u8
    ensures { result ≡ running_number conf }
{
    match conf {
        Some(conf) => conf.0,
        None => NONE_RUNNING,
    }
}

/// Returns the set of processors that are up in a row. The result type lets the proof of `publish` conclude that the
/// set fits in 8 bits.
pub(crate) fn up_in(row: &Row) -> u8
    ensures { result ≡ row.now.env.up }
{
    row.env.up
}
