//! The data link's law.
#![tactic(auto, unfolding(crate::specs::DataLink::fresh_of, crate::specs::DataLink::fresh, crate::specs::DataLink::rate_after, crate::specs::DataLink::waiting, crate::specs::DataLink::going, crate::specs::DataLink::queued_after, crate::specs::DataLink::sent_after, crate::specs::DataLink::left_over, crate::specs::DataLink::dropped_after, crate::specs::DataLink::data_link_ran))]

ghost use Rattle.std.specs.Prelude.{◌≡◌, ◌≤ℤ◌, ◌<◌, ◌-ℤ◌, pos};
ghost use Rattle.scram_types.specs.Numbers.{FitsSums, minus};
ghost use Rattle.app_model.specs.DataLink.{fresh_of, fresh, rate_after, waiting, going, queued_after, sent_after, left_over, dropped_after, data_link_ran};

use crate::reads::{next_ticks, read_lead, read_own};
use crate::seen::Seen;
use kind_table::kinds::data_link::{DROPPED, FAST, KIND, QUEUED, SENT};
use kind_table::kinds::every_kind::STATUS;
use kind_table::kinds::{autopilot, flight_control, navigator, power_monitor};
use scram_types::Area;

fn message_of(kind: u8, seen: &Seen) -> i64
    requires { kind < 8 }
    ensures value { result ≡ fresh_of kind seen.now }
    ensures low { pos 0 ≤ℤ result }
    ensures high { result ≤ℤ pos 1 }
{
    if read_lead(kind, seen, STATUS) == 1 {
        1
    } else {
        0
    }
}

fn all_fresh(seen: &Seen) -> i64
    ensures value { result ≡ fresh seen.now }
    ensures low { pos 0 ≤ℤ result }
    ensures high { result ≤ℤ pos 4 }
{
    message_of(autopilot::KIND, seen)
        + message_of(flight_control::KIND, seen)
        + message_of(power_monitor::KIND, seen)
        + message_of(navigator::KIND, seen)
}

fn next_rate(seen: &Seen) -> i64
    ensures value { result ≡ rate_after seen.now }
    ensures low { pos 1 ≤ℤ result }
    ensures high { result ≤ℤ pos 4 }
{
    if seen.mode.0 == FAST { 4 } else { 1 }
}

fn all_waiting(seen: &Seen) -> i64
    ensures value { result ≡ waiting seen.now }
    ensures low { minus 4294967296 ≤ℤ result }
    ensures high { result ≤ℤ pos 4294967300 }
{
    read_own(KIND, seen, QUEUED) + all_fresh(seen)
}

fn all_going(seen: &Seen) -> i64
    ensures value { result ≡ going seen.now }
    ensures word { FitsSums result }
{
    next_rate(seen).min(all_waiting(seen))
}

fn without(waiting: i64, going: i64) -> i64
    requires waiting_low { minus 4294967296 ≤ℤ waiting }
    requires waiting_high { waiting ≤ℤ pos 4294967300 }
    requires going { FitsSums going }
    ensures value { result ≡ waiting -ℤ going }
    ensures low { minus 8589934592 ≤ℤ result }
    ensures high { result ≤ℤ pos 8589934600 }
{
    waiting - going
}

#[tactic(auto, unfolding(crate::specs::DataLink::queued_after))]
fn next_queued(seen: &Seen) -> i64
    ensures value { result ≡ queued_after seen.now }
    ensures low { minus 8589934592 ≤ℤ result }
    ensures high { result ≤ℤ pos 64 }
{
    without(all_waiting(seen), all_going(seen)).min(64)
}

#[tactic(auto, unfolding(crate::specs::DataLink::sent_after))]
fn next_sent(seen: &Seen) -> i64
    ensures { result ≡ sent_after seen.now }
{
    (read_own(KIND, seen, SENT) + all_going(seen)).min(1_000_000)
}

fn without_both(waiting: i64, going: i64, queued: i64) -> i64
    requires waiting_low { minus 4294967296 ≤ℤ waiting }
    requires waiting_high { waiting ≤ℤ pos 4294967300 }
    requires going { FitsSums going }
    requires queued_low { minus 8589934592 ≤ℤ queued }
    requires queued_high { queued ≤ℤ pos 64 }
    ensures value { result ≡ (waiting -ℤ going) -ℤ queued }
    ensures low { minus 17179869184 ≤ℤ result }
    ensures high { result ≤ℤ pos 34359738368 }
{
    waiting - going - queued
}

fn all_left_over(seen: &Seen) -> i64
    ensures value { result ≡ left_over seen.now }
    ensures low { minus 17179869184 ≤ℤ result }
    ensures high { result ≤ℤ pos 34359738368 }
{
    without_both(all_waiting(seen), all_going(seen), next_queued(seen))
}

#[tactic(auto, unfolding(crate::specs::DataLink::dropped_after))]
fn next_dropped(seen: &Seen) -> i64
    ensures { result ≡ dropped_after seen.now }
{
    (read_own(KIND, seen, DROPPED) + all_left_over(seen)).min(1_000_000)
}

/// Returns the data link's area after a frame in which it runs.
pub fn run(seen: &Seen) -> Area
    ensures { result ≡ data_link_ran seen.now }
{
    [
        1,
        next_queued(seen),
        next_sent(seen),
        next_rate(seen),
        next_dropped(seen),
        0,
        next_ticks(KIND, seen),
        0,
    ]
}
