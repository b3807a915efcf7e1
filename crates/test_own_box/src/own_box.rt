//! A flight control as a builder might write it.
#![tactic(auto, unfolding(app_model::specs::FlightControl::command, app_model::specs::FlightControl::elevator_after, app_model::specs::FlightControl::aileron_after, app_model::specs::FlightControl::flight_control_ran))]

ghost use Rattle.std.specs.Prelude.{◌≡◌, ◌<◌};
ghost use Rattle.scram_types.specs.Numbers.{FitsSums};
ghost use Rattle.app_model.specs.FlightControl.{aileron_after, closer, command, elevator_after, flight_control_ran};

use app_model::orders::area_after;
use app_model::reads::{next_ticks, read_lead, read_own};
use app_model::{App, Seen};
use kind_table::kinds::autopilot;
use kind_table::kinds::every_kind::STATUS;
use kind_table::kinds::flight_control::{AILERON, AUGMENTED, ELEVATOR, KIND};
use scram_types::ranges::{clamped_in, make_range};
use scram_types::{Area, KindId, Order};

/// A flight control that finds the positions that a surface can reach in one frame, and moves the surface to the
/// position nearest to the command. The law of the kind is stated in another way: by the step that the surface makes.
#[derive(Drop)]
pub struct OwnFlightControl {}

impl App for OwnFlightControl {
    ghost kind_of = { λ _. 1 };

    fn kind(&self) -> KindId {
        KindId(KIND)
    }

    fn frame(&mut self, order: Order, seen: &Seen) -> Area {
        match area_after(KIND, order, seen) {
            Some(area) => area,
            None => run(seen),
        }
    }
}

/// Returns the area of the flight control after a run.
fn run(seen: &Seen) -> Area
    ensures { result ≡ flight_control_ran seen.now }
{
    [
        1,
        next_elevator(seen),
        next_aileron(seen),
        commanded(seen, autopilot::PITCH),
        commanded(seen, autopilot::ROLL),
        0,
        next_ticks(KIND, seen),
        0,
    ]
}

fn next_elevator(seen: &Seen) -> i64
    ensures { result ≡ elevator_after seen.now }
{
    let command = commanded(seen, autopilot::PITCH);
    if seen.mode.0 == AUGMENTED {
        clamped_in(
            make_range(100, 100),
            reached(read_own(KIND, seen, ELEVATOR), command, 40),
        )
    } else {
        2 * command
    }
}

fn next_aileron(seen: &Seen) -> i64
    ensures { result ≡ aileron_after seen.now }
{
    let command = commanded(seen, autopilot::ROLL);
    if seen.mode.0 == AUGMENTED {
        clamped_in(
            make_range(150, 150),
            reached(read_own(KIND, seen, AILERON), command, 60),
        )
    } else {
        2 * command
    }
}

/// Returns the command of the autopilot, or 0 if the autopilot does not run.
fn commanded(seen: &Seen, variable: usize) -> i64
    requires { variable < 8 }
    ensures value { result ≡ command seen.now variable }
    ensures word { FitsSums result }
{
    if read_lead(autopilot::KIND, seen, STATUS) == 1 {
        read_lead(autopilot::KIND, seen, variable)
    } else {
        0
    }
}

/// Returns the position that a surface reaches in one frame, moving from `from` towards `wanted` by at most `step`.
#[tactic(auto, unfolding(app_model::specs::FlightControl::closer, scram_types::specs::Ranges::clamp_in, scram_types::specs::Numbers::clamp))]
fn reached(from: i64, wanted: i64, step: u32) -> i64
    requires from { FitsSums from }
    requires wanted { FitsSums wanted }
    ensures { result ≡ closer from wanted step }
{
    let step = i64::from(step);
    if wanted > from + step {
        from + step
    } else if wanted < from - step {
        from - step
    } else {
        wanted
    }
}
