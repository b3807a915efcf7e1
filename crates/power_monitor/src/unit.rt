//! The power monitor as a box that remembers its last call.

use app_model::memory::{KindLaw, Remembering};
use app_model::{Seen, law_area};
use kind_table::kinds::power_monitor::KIND;
use scram_types::{Area, KindId, Order};

/// The law of kind 2, the power monitor.
#[derive(Drop)]
pub struct PowerMonitorLaw {}

impl KindLaw for PowerMonitorLaw {
    ghost number = { 2 };

    fn kind() -> KindId {
        KindId(KIND)
    }

    fn area_after(order: Order, seen: &Seen) -> Area {
        law_area(KindId(KIND), order, seen)
    }
}

/// A power monitor, which tracks the battery's charge. It answers by the law of kind 2, and repeats its last answer
/// if the call is the same as the last call.
pub type PowerMonitor = Remembering<PowerMonitorLaw>;
