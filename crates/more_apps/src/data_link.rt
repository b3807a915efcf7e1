//! The data link as a box that remembers its last call.

ghost use Rattle.more_apps.specs.Counts.{KeepsCount};

use app_model::memory::{KindLaw, Remembering};
use app_model::{Seen, law_area};
use kind_table::kinds::data_link::KIND;
use scram_types::{Area, KindId, Order};

/// States that every message is counted. If a run leaves both counts below their maximum, the sum of the messages
/// sent, queued and dropped grows by the number of new messages. There is one new message for each of the kinds 0 to
/// 3 whose status is 1.
pub fn data_link_keeps_count()
    ensures { KeepsCount }
{}

/// The law of kind 4, the data link.
#[derive(Drop)]
pub struct DatalinkLaw {}

impl KindLaw for DatalinkLaw {
    ghost number = { 4 };

    fn kind() -> KindId {
        KindId(KIND)
    }

    fn area_after(order: Order, seen: &Seen) -> Area {
        law_area(KindId(KIND), order, seen)
    }
}

/// A data link, which sends a message for each of the kinds 0 to 3 whose status is 1. It answers by the law of kind
/// 4, and repeats its last answer if the call is the same as the last call.
pub type Datalink = Remembering<DatalinkLaw>;
