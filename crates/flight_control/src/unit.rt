//! The flight control as a box that remembers its last call.

use app_model::memory::{KindLaw, Remembering};
use app_model::{Seen, law_area};
use kind_table::kinds::flight_control::KIND;
use scram_types::{Area, KindId, Order};

/// The law of kind 1, the flight control.
#[derive(Drop)]
pub struct FlightControlLaw {}

impl KindLaw for FlightControlLaw {
    ghost number = { 1 };

    fn kind() -> KindId {
        KindId(KIND)
    }

    fn area_after(order: Order, seen: &Seen) -> Area {
        law_area(KindId(KIND), order, seen)
    }
}

/// A flight control, which moves the elevator and the aileron as the autopilot commands. It answers by the law of
/// kind 1, and repeats its last answer if the call is the same as the last call.
pub type FlightControl = Remembering<FlightControlLaw>;
