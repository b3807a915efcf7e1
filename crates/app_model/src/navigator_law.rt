//! The navigator's law.
#![tactic(auto, unfolding(crate::specs::Navigator::bearing_error_after, crate::specs::Navigator::climb_left_after, crate::specs::Navigator::near, crate::specs::Navigator::on_course, crate::specs::Navigator::navigator_ran))]

ghost use Rattle.std.specs.Prelude.{◌≡◌};
ghost use Rattle.scram_types.specs.Numbers.{FitsSums};
ghost use Rattle.app_model.specs.Navigator.{near, on_course, navigator_ran, climb_left_after, bearing_error_after};

use crate::headings::short_turn;
use crate::reads::{
    next_ticks, read_altitude, read_goal_altitude, read_goal_heading, read_heading,
};
use crate::seen::Seen;
use kind_table::kinds::navigator::{KIND, ROUTE};
use scram_types::Area;
use scram_types::numbers::gap;
use scram_types::ranges::{clamped_in, make_range};

fn next_bearing(seen: &Seen) -> i64
    ensures value { result ≡ bearing_error_after seen.now }
    ensures word { FitsSums result }
{
    short_turn(read_goal_heading(seen), read_heading(seen))
}

fn next_climb(seen: &Seen) -> i64
    ensures value { result ≡ climb_left_after seen.now }
    ensures word { FitsSums result }
{
    if seen.mode.0 == ROUTE {
        clamped_in(
            make_range(5_000, 5_000),
            gap(read_altitude(seen), read_goal_altitude(seen)),
        )
    } else {
        0
    }
}

fn is_near(x: i64, most: u32) -> bool
    ensures { result ≡ near x most }
{
    -i64::from(most) <= x && x <= i64::from(most)
}

fn next_on_course(seen: &Seen) -> i64
    ensures { result ≡ on_course seen.now }
{
    if is_near(next_bearing(seen), 50) && is_near(next_climb(seen), 100) {
        1
    } else {
        0
    }
}

/// Returns the navigator's area after a frame in which it runs.
pub fn run(seen: &Seen) -> Area
    ensures { result ≡ navigator_ran seen.now }
{
    [
        1,
        next_bearing(seen),
        next_climb(seen),
        next_on_course(seen),
        0,
        0,
        next_ticks(KIND, seen),
        0,
    ]
}
