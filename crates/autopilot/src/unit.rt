//! The autopilot as a box that remembers its last call.

use app_model::memory::{KindLaw, Remembering};
use app_model::{Seen, law_area};
use kind_table::kinds::autopilot::KIND;
use scram_types::{Area, KindId, Order};

/// The law of kind 0, the autopilot.
#[derive(Drop)]
pub struct AutopilotLaw {}

impl KindLaw for AutopilotLaw {
    ghost number = { 0 };

    fn kind() -> KindId {
        KindId(KIND)
    }

    fn area_after(order: Order, seen: &Seen) -> Area {
        law_area(KindId(KIND), order, seen)
    }
}

/// An autopilot, which commands pitch and roll to reach its target altitude and heading. It answers by the law of
/// kind 0, and repeats its last answer if the call is the same as the last call.
pub type Autopilot = Remembering<AutopilotLaw>;
