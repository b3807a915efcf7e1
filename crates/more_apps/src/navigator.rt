//! The navigator as a box that remembers its last call.

use app_model::memory::{KindLaw, Remembering};
use app_model::{Seen, law_area};
use kind_table::kinds::navigator::KIND;
use scram_types::{Area, KindId, Order};

/// The law of kind 3, the navigator.
#[derive(Drop)]
pub struct NavigatorLaw {}

impl KindLaw for NavigatorLaw {
    ghost number = { 3 };

    fn kind() -> KindId {
        KindId(KIND)
    }

    fn area_after(order: Order, seen: &Seen) -> Area {
        law_area(KindId(KIND), order, seen)
    }
}

/// A navigator, which measures how far the aircraft is from its goal. It answers by the law of kind 3, and repeats
/// its last answer if the call is the same as the last call.
pub type Navigator = Remembering<NavigatorLaw>;
