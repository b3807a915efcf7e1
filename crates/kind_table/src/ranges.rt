//! The ranges of the variables, taken from the table of kinds. The units are those of [`crate::kinds`].
#![tactic(auto, unfolding(crate::specs::Ranges::mode_range, crate::specs::Ranges::initialised_range, crate::specs::Ranges::widest_mode, crate::specs::Ranges::sane_range, crate::specs::Ranges::is_moving))]

ghost use Rattle.std.specs.Prelude.{◌≡◌};
ghost use Rattle.kind_table.specs.Ranges.{initialised_range, widest_mode, sane_range, mode_range, is_moving};

use crate::table::{kind_or_last, kind_variable, range_in};
use scram_types::Range;

/// Returns the range of a variable while an application of the kind is in the mode.
pub fn mode_range(kind: u8, mode: u8, variable: usize) -> Range
    ensures { result ≡ mode_range kind mode variable }
{
    range_in(kind_variable(kind, variable).ranges, mode)
}

/// Returns the range of a variable after the last frame of an init phase.
pub fn initialised_range(kind: u8, mode: u8, variable: usize) -> Range
    ensures { result ≡ initialised_range kind mode variable }
{
    range_in(kind_variable(kind, variable).initialised, mode)
}

fn widest_mode(kind: u8) -> u8
    ensures { result ≡ widest_mode kind }
{
    kind_or_last(kind).widest
}

/// Returns the widest of the ranges that a variable has in the modes of the kind.
pub fn sane_range(kind: u8, variable: usize) -> Range
    ensures { result ≡ sane_range kind variable }
{
    mode_range(kind, widest_mode(kind), variable)
}

/// Returns `true` if a halt brings the variable to 0.
pub fn is_moving(kind: u8, variable: usize) -> bool
    ensures { result ≡ is_moving kind variable }
{
    kind_variable(kind, variable).moves
}
