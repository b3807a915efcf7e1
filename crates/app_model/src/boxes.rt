//! The racks of a flight.

ghost use Rattle.std.specs.Prelude.{◌≡◌, All, IfOk, [], vec_len};

use crate::racks::{Rack, empty_racks};
use std::alloc::{AllocError, Global};

/// The racks with which a mission is flown. `racks[p]` is the rack of processor `p`, and `spares[p]` is the rack of
/// `p` after a restart.
#[derive(Drop)]
pub struct Boxes {
    pub racks: Vec<Rack>,
    pub spares: Vec<Rack>,

    pub ghost racks_len: { vec_len racks ≡ 8 },
    pub ghost spares_len: { vec_len spares ≡ 8 },
}

/// Returns racks without boxes, or an error if memory runs out. A flight with such racks computes each law itself.
pub fn empty_boxes(alloc: Global) -> Result<Boxes, AllocError>
    ensures racks { IfOk result (λ boxes. All (λ r. r.boxes.items ≡ []) boxes.racks.items) }
    ensures spares { IfOk result (λ boxes. All (λ r. r.boxes.items ≡ []) boxes.spares.items) }
{
    let racks = empty_racks(alloc)?;
    let spares = empty_racks(alloc)?;
    Ok(Boxes { racks, spares })
}
