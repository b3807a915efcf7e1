//! Ranges of quantities.
#![tactic(auto, unfolding(crate::specs::Ranges::clamp_in))]

ghost use Rattle.std.specs.Prelude.{◌≡◌, ◌≤ℤ◌, pos};
ghost use Rattle.scram_types.specs.Numbers.{FitsSums, minus};
ghost use Rattle.scram_types.specs.Ranges.{clamp_in, limit};

use crate::numbers::clamped;

/// The whole numbers from `-below` to `above`, inclusive. Each range contains 0.
#[derive(Clone, Copy)]
pub struct Range {
    pub below: u32,
    pub above: u32,
}

/// Creates the range from `-below` to `above`.
pub const fn make_range(below: u32, above: u32) -> Range
    ensures { result ≡ limit below above }
{
    Range { below, above }
}

/// Returns `x`, restricted to `range`.
pub fn clamped_in(range: Range, x: i64) -> i64
    ensures value { result ≡ clamp_in range x }
    ensures low { minus range.below ≤ℤ result }
    ensures high { result ≤ℤ pos range.above }
    ensures word { FitsSums result }
{
    clamped(x, -i64::from(range.below), i64::from(range.above))
}
