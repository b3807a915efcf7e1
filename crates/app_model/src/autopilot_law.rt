//! The autopilot's law.
#![tactic(auto, unfolding(crate::specs::Autopilot::target_alt, crate::specs::Autopilot::target_heading, crate::specs::Autopilot::altitude_error, crate::specs::Autopilot::integral_after, crate::specs::Autopilot::pitch_after, crate::specs::Autopilot::roll_after, crate::specs::Autopilot::autopilot_ran, scram_types::specs::Numbers::part))]

ghost use Rattle.std.specs.Prelude.{◌≡◌, ◌+ℤ◌};
ghost use Rattle.scram_types.specs.Numbers.{FitsSums, part};
ghost use Rattle.app_model.specs.Autopilot.{target_alt, target_heading, altitude_error, integral_after, pitch_after, roll_after, autopilot_ran};

use crate::headings::short_turn;
use crate::reads::{
    next_ticks, read_altitude, read_goal_altitude, read_goal_heading, read_heading, read_own,
};
use crate::seen::Seen;
use kind_table::kinds::autopilot::{INTEGRAL, KIND, NAVIGATE, PITCH, TARGET_ALT, TARGET_HEADING};
use kind_table::ranges::mode_range;
use scram_types::Area;
use scram_types::numbers::{gap, sum};
use scram_types::ranges::{clamped_in, make_range};

fn wanted_altitude(seen: &Seen) -> i64
    ensures value { result ≡ target_alt seen.now }
    ensures word { FitsSums result }
{
    if seen.mode.0 == NAVIGATE {
        read_goal_altitude(seen)
    } else {
        read_own(KIND, seen, TARGET_ALT)
    }
}

fn wanted_heading(seen: &Seen) -> i64
    ensures value { result ≡ target_heading seen.now }
    ensures word { FitsSums result }
{
    if seen.mode.0 == NAVIGATE {
        read_goal_heading(seen)
    } else {
        read_own(KIND, seen, TARGET_HEADING)
    }
}

fn error_of_altitude(seen: &Seen) -> i64
    ensures value { result ≡ altitude_error seen.now }
    ensures word { FitsSums result }
{
    clamped_in(
        make_range(500, 500),
        gap(read_altitude(seen), wanted_altitude(seen)),
    )
}

fn next_integral(seen: &Seen) -> i64
    ensures value { result ≡ integral_after seen.now }
    ensures word { FitsSums result }
{
    clamped_in(
        make_range(4_000, 4_000),
        sum(read_own(KIND, seen, INTEGRAL), error_of_altitude(seen)),
    )
}

fn lift(error: i64, integral: i64) -> i64
    requires error { FitsSums error }
    requires integral { FitsSums integral }
    ensures { result ≡ part error 10 +ℤ part integral 100 }
{
    error / 10 + integral / 100
}

fn next_pitch(seen: &Seen) -> i64
    ensures { result ≡ pitch_after seen.now }
{
    clamped_in(
        mode_range(KIND, seen.mode.0, PITCH),
        lift(error_of_altitude(seen), next_integral(seen)),
    )
}

fn quarter(x: i64) -> i64
    ensures { result ≡ part x 4 }
{
    x / 4
}

fn next_roll(seen: &Seen) -> i64
    ensures { result ≡ roll_after seen.now }
{
    if seen.mode.0 == NAVIGATE {
        clamped_in(
            make_range(150, 150),
            quarter(short_turn(wanted_heading(seen), read_heading(seen))),
        )
    } else {
        0
    }
}

/// Returns the autopilot's area after a frame in which it runs.
pub fn run(seen: &Seen) -> Area
    ensures { result ≡ autopilot_ran seen.now }
{
    [
        1,
        next_pitch(seen),
        next_roll(seen),
        wanted_altitude(seen),
        wanted_heading(seen),
        next_integral(seen),
        next_ticks(KIND, seen),
        0,
    ]
}
