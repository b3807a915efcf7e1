//! An autopilot without memory.

use app_model::{App, Seen, law_area};
use kind_table::kinds::autopilot::KIND;
use scram_types::{Area, KindId, Order};

/// An autopilot that does not remember its last call. It answers by the law of kind 0.
#[derive(Drop)]
pub struct PlainAutopilot {}

impl PlainAutopilot {
    /// Creates an autopilot without memory.
    pub fn new() -> PlainAutopilot {
        PlainAutopilot {}
    }
}

impl App for PlainAutopilot {
    ghost kind_of = { λ _. 0 };

    fn kind(&self) -> KindId {
        KindId(KIND)
    }

    fn frame(&mut self, order: Order, seen: &Seen) -> Area {
        law_area(KindId(KIND), order, seen)
    }
}
