//! The flight control's law.
#![tactic(auto, unfolding(crate::specs::FlightControl::closer, crate::specs::FlightControl::command, crate::specs::FlightControl::elevator_after, crate::specs::FlightControl::aileron_after, crate::specs::FlightControl::flight_control_ran))]

ghost use Rattle.std.specs.Prelude.{◌≡◌, ◌<◌};
ghost use Rattle.scram_types.specs.Numbers.{FitsSums};
ghost use Rattle.app_model.specs.FlightControl.{command, closer, elevator_after, aileron_after, flight_control_ran};

use crate::reads::{next_ticks, read_lead, read_own};
use crate::seen::Seen;
use kind_table::kinds::autopilot;
use kind_table::kinds::every_kind::STATUS;
use kind_table::kinds::flight_control::{AILERON, AUGMENTED, ELEVATOR, KIND};
use scram_types::Area;
use scram_types::numbers::{gap, sum};
use scram_types::ranges::{clamped_in, make_range};

fn commanded(seen: &Seen, variable: usize) -> i64
    requires { variable < 8 }
    ensures value { result ≡ command seen.now variable }
    ensures word { FitsSums result }
{
    if read_lead(autopilot::KIND, seen, STATUS) == 1 {
        read_lead(autopilot::KIND, seen, variable)
    } else {
        0
    }
}

fn move_closer(x: i64, target: i64, step: u32) -> i64
    requires x { FitsSums x }
    requires target { FitsSums target }
    ensures value { result ≡ closer x target step }
{
    sum(x, clamped_in(make_range(step, step), gap(x, target)))
}

fn next_elevator(seen: &Seen) -> i64
    ensures { result ≡ elevator_after seen.now }
{
    let command = commanded(seen, autopilot::PITCH);
    if seen.mode.0 == AUGMENTED {
        clamped_in(
            make_range(100, 100),
            move_closer(read_own(KIND, seen, ELEVATOR), command, 40),
        )
    } else {
        2 * command
    }
}

fn next_aileron(seen: &Seen) -> i64
    ensures { result ≡ aileron_after seen.now }
{
    let command = commanded(seen, autopilot::ROLL);
    if seen.mode.0 == AUGMENTED {
        clamped_in(
            make_range(150, 150),
            move_closer(read_own(KIND, seen, AILERON), command, 60),
        )
    } else {
        2 * command
    }
}

/// Returns the flight control's area after a frame in which it runs.
pub fn run(seen: &Seen) -> Area
    ensures { result ≡ flight_control_ran seen.now }
{
    [
        1,
        next_elevator(seen),
        next_aileron(seen),
        commanded(seen, autopilot::PITCH),
        commanded(seen, autopilot::ROLL),
        0,
        next_ticks(KIND, seen),
        0,
    ]
}
