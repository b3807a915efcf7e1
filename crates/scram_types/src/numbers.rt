//! Whole numbers: clamping, and sums and differences that do not overflow.
#![tactic(auto, unfolding(crate::specs::Numbers::clamp))]

ghost use Rattle.std.specs.Prelude.{◌-ℤ◌, ◌+ℤ◌, pos, ◌≡◌, ◌≤ℤ◌};
ghost use Rattle.scram_types.specs.Numbers.{FitsSums, clamp, minus};

/// Returns `x`, restricted to the range from `low` to `high`, inclusive. `low` must be at most `high`.
pub fn clamped(x: i64, low: i64, high: i64) -> i64
    requires { low ≤ℤ high }
    ensures value { result ≡ clamp x low high }
    ensures low { low ≤ℤ result }
    ensures high { result ≤ℤ high }
{
    if x < low {
        low
    } else if x > high {
        high
    } else {
        x
    }
}

/// Returns `x + y`. Both numbers must be within 2^32 of 0.
pub fn sum(x: i64, y: i64) -> i64
    requires x { FitsSums x }
    requires y { FitsSums y }
    ensures value { result ≡ x +ℤ y }
    ensures low { minus 8589934592 ≤ℤ result }
    ensures high { result ≤ℤ pos 8589934592 }
{
    x + y
}

/// Returns `target - x`. Both numbers must be within 2^32 of 0.
pub fn gap(x: i64, target: i64) -> i64
    requires x { FitsSums x }
    requires target { FitsSums target }
    ensures value { result ≡ target -ℤ x }
    ensures low { minus 8589934592 ≤ℤ result }
    ensures high { result ≤ℤ pos 8589934592 }
{
    target - x
}
