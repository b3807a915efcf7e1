//! Turns from one heading to another, in tenths of a degree.
#![tactic(auto, unfolding(scram_types::specs::Numbers::modulo, crate::specs::Headings::short_turn))]

ghost use Rattle.std.specs.Prelude.{◌≡◌, ◌≤ℤ◌, ◌-ℤ◌, ◌+ℤ◌, pos};
ghost use Rattle.scram_types.specs.Numbers.{FitsSums, modulo};
ghost use Rattle.app_model.specs.Headings.{short_turn};

fn around(x: i64) -> i64
    ensures value { result ≡ modulo x 3600 }
    ensures low { pos 0 ≤ℤ result }
    ensures high { result ≤ℤ pos 3599 }
{
    x.rem_euclid(3_600)
}

fn turn_offset(target: i64, from: i64) -> i64
    requires target { FitsSums target }
    requires from { FitsSums from }
    ensures { result ≡ (target -ℤ from) +ℤ pos 5400 }
{
    target - from + 5_400
}

fn centred(x: i64) -> i64
    requires low { pos 0 ≤ℤ x }
    requires high { x ≤ℤ pos 3599 }
    ensures value { result ≡ x -ℤ pos 1800 }
    ensures word { FitsSums result }
{
    x - 1_800
}

/// Returns the shorter turn from heading `from` to heading `target`, -1,800 to 1,799 tenths of a degree. A negative
/// turn is to the left.
pub fn short_turn(target: i64, from: i64) -> i64
    requires target { FitsSums target }
    requires from { FitsSums from }
    ensures value { result ≡ short_turn target from }
    ensures word { FitsSums result }
{
    centred(around(turn_offset(target, from)))
}
