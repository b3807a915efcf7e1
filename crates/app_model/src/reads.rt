//! The numbers that laws read. Each number is clamped to its range, so no law overflows.
#![tactic(auto, unfolding(scram_types::specs::Numbers::word, crate::specs::Reads::own_word, crate::specs::Reads::lead_word, crate::specs::Reads::altitude, crate::specs::Reads::heading, crate::specs::Reads::goal_altitude, crate::specs::Reads::goal_heading, crate::specs::Reads::ticks_after))]

ghost use Rattle.std.specs.Prelude.{◌≡◌, ◌<◌};
ghost use Rattle.scram_types.specs.Numbers.{FitsSums, word};
ghost use Rattle.app_model.specs.Reads.{own_word, lead_word, altitude, heading, goal_altitude, goal_heading, ticks_after};

use crate::seen::Seen;
use kind_table::kinds::every_kind::TICKS;
use kind_table::ranges::{mode_range, sane_range};
use scram_types::Area;
use scram_types::ranges::{clamped_in, make_range};

fn word_at(area: &Area, variable: usize) -> i64
    requires { variable < 8 }
    ensures { result ≡ word area.now variable }
{
    area[variable]
}

/// Returns a word of the application's own area, clamped to the range of the mode that the application is to be in.
pub fn read_own(kind: u8, seen: &Seen, variable: usize) -> i64
    requires { variable < 8 }
    ensures value { result ≡ own_word kind seen.now variable }
    ensures word { FitsSums result }
{
    clamped_in(
        mode_range(kind, seen.mode.0, variable),
        word_at(&seen.own, variable),
    )
}

/// Returns a word of the area of the lowest-numbered application of a kind, clamped to the widest range of the word.
pub fn read_lead(kind: u8, seen: &Seen, variable: usize) -> i64
    requires kind { kind < 8 }
    requires variable { variable < 8 }
    ensures value { result ≡ lead_word kind seen.now variable }
    ensures word { FitsSums result }
{
    clamped_in(
        sane_range(kind, variable),
        word_at(&seen.lead[usize::from(kind)], variable),
    )
}

/// Returns the aircraft's altitude in feet, clamped to 0 to 40,000.
pub fn read_altitude(seen: &Seen) -> i64
    ensures value { result ≡ altitude seen.now }
    ensures word { FitsSums result }
{
    clamped_in(make_range(0, 40_000), seen.world.alt)
}

/// Returns the aircraft's heading in tenths of a degree, clamped to 0 to 3,599.
pub fn read_heading(seen: &Seen) -> i64
    ensures value { result ≡ heading seen.now }
    ensures word { FitsSums result }
{
    clamped_in(make_range(0, 3_599), seen.world.heading)
}

/// Returns the goal's altitude in feet, clamped to 0 to 40,000.
pub fn read_goal_altitude(seen: &Seen) -> i64
    ensures value { result ≡ goal_altitude seen.now }
    ensures word { FitsSums result }
{
    clamped_in(make_range(0, 40_000), seen.goal.altitude)
}

/// Returns the goal's heading in tenths of a degree, clamped to 0 to 3,599.
pub fn read_goal_heading(seen: &Seen) -> i64
    ensures value { result ≡ goal_heading seen.now }
    ensures word { FitsSums result }
{
    clamped_in(make_range(0, 3_599), seen.goal.heading)
}

/// Returns the number of frames in which the application ran, including this frame, at most 1,000,000.
pub fn next_ticks(kind: u8, seen: &Seen) -> i64
    ensures { result ≡ ticks_after kind seen.now }
{
    (read_own(kind, seen, TICKS) + 1).min(1_000_000)
}
