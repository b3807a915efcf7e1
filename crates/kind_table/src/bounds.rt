//! The tables of ranges: the minimum and the maximum of each variable.
#![tactic(auto, unfolding(crate::specs::Bounds::during, crate::specs::Bounds::after_halt, crate::specs::Bounds::after_init, crate::specs::Bounds::sane))]

ghost use Rattle.std.specs.Prelude.{◌≡◌};
ghost use Rattle.kind_table.specs.Bounds.{ends, during, after_halt, after_init, sane};

use crate::ranges::{initialised_range, is_moving, mode_range, sane_range};
use scram_types::{KindId, Mode, Range};

fn ends_of(range: Range) -> (i64, i64)
    ensures { result ≡ ends range }
{
    (-i64::from(range.below), i64::from(range.above))
}

/// Returns the minimum and the maximum of a variable while an application of kind `kind` has status `status` in mode
/// `mode`. The status is 1 for run, 2 for halt, 3 for prepare and 4 for init. The units are those of
/// [`crate::kinds`].
pub fn during(kind: KindId, status: u8, mode: Mode, variable: u8) -> (i64, i64)
    ensures { result ≡ during kind.0 status mode.0 variable }
{
    if variable == 0 {
        (i64::from(status), i64::from(status))
    } else {
        ends_of(mode_range(kind.0, mode.0, usize::from(variable)))
    }
}

/// Returns the minimum and the maximum of a variable after the last frame of a halt phase. Both are 0 for a variable
/// that a halt brings to 0.
pub fn after_halt(kind: KindId, mode: Mode, variable: u8) -> (i64, i64)
    ensures { result ≡ after_halt kind.0 mode.0 variable }
{
    if is_moving(kind.0, usize::from(variable)) {
        (0, 0)
    } else {
        during(kind, 2, mode, variable)
    }
}

/// Returns the minimum and the maximum of a variable after the last frame of an init phase.
pub fn after_init(kind: KindId, mode: Mode, variable: u8) -> (i64, i64)
    ensures { result ≡ after_init kind.0 mode.0 variable }
{
    if variable == 0 {
        (4, 4)
    } else {
        ends_of(initialised_range(kind.0, mode.0, usize::from(variable)))
    }
}

/// Returns the minimum and the maximum of a variable over all modes of the kind, which are 0 and 4 for the status.
pub fn sane(kind: KindId, variable: u8) -> (i64, i64)
    ensures { result ≡ sane kind.0 variable }
{
    ends_of(sane_range(kind.0, usize::from(variable)))
}
