//! Racks. A rack holds the boxes of one processor, one for each of the kinds 0 to 4.

ghost use Rattle.std.specs.Prelude.{◌≡◌, ◌↔◌, ◌<◌, All, IfOk, IsTrue, [], map, vec_len};
ghost use Rattle.app_model.specs.Law.{law};
ghost use Rattle.app_model.specs.Racks.{RacksFit, RackFits, AllRacksFit, OthersStay};

use crate::all_laws::law_area;
use crate::app::App;
use crate::seen::Seen;
use scram_types::{Area, KindId, Order, ProcId};
use std::alloc::{AllocError, Global};

/// The applications of one processor: `boxes[k]` is the box of kind `k`.
pub struct Rack {
    pub boxes: Vec<Box<dyn App + Send>>,
}

// A derived drop is laid out in the proof of each function that drops the value, and this one is a call.
impl Drop for Rack {
    fn drop(self) {
        let Rack { boxes: _ } = self;
    }
}

/// Creates a rack without boxes. This function does not allocate memory.
pub fn empty_rack(alloc: Global) -> Rack
    ensures { result.boxes.items ≡ [] }
{
    Rack {
        boxes: Vec::new(alloc),
    }
}

/// Creates eight racks without boxes, or returns `Err` if memory runs out. A flight with such racks computes each law
/// itself.
pub fn empty_racks(alloc: Global) -> Result<Vec<Rack>, AllocError>
    ensures count { IfOk result (λ racks. vec_len racks ≡ 8) }
    ensures empty { IfOk result (λ racks. All (λ r. r.boxes.items ≡ []) racks.items) }
{
    let mut racks = Vec::new(alloc);
    for _made in 0..8u8 {
        racks.push(empty_rack(alloc))?;
    }
    Ok(racks)
}

/// Returns the kind of the application in a box.
pub fn box_kind(app: &Box<dyn App + Send>) -> KindId
    ensures { result.0 ≡ kind_of app.now }
{
    app.kind()
}

/// Returns `true` if the rack has five boxes and `boxes[k]` is of kind `k` for each `k`.
pub fn rack_fits(rack: &Rack) -> bool
    ensures { IsTrue result ↔ RackFits kind_of rack.now.boxes.items }
{
    if rack.boxes.len() != 5 {
        return false;
    }
    let kinds = [
        box_kind(&rack.boxes[0]).0,
        box_kind(&rack.boxes[1]).0,
        box_kind(&rack.boxes[2]).0,
        box_kind(&rack.boxes[3]).0,
        box_kind(&rack.boxes[4]).0,
    ];
    kinds == [0, 1, 2, 3, 4]
}

fn all_racks_fit(racks: &[Rack]) -> bool
    ensures { IsTrue result ↔ AllRacksFit kind_of (λ r. r.boxes.items) racks.now }
{
    for rack in racks {
        if !rack_fits(rack) {
            return false;
        }
    }
    true
}

/// Returns `true` if there are eight racks, each with a box of kind `k` at each index `k` from 0 to 4 and no further
/// boxes. In every list of racks, rack `p` belongs to processor `p`.
pub fn racks_fit(racks: &[Rack]) -> bool
    ensures { IsTrue result ↔ RacksFit kind_of (λ r. r.boxes.items) racks.now }
{
    racks.len() == 8 && all_racks_fit(racks)
}

/// Returns the area that a box computes for an order, by the law of the box's kind. The kind of the box does not
/// change.
pub fn box_frame(app: &mut Box<dyn App + Send>, order: Order, seen: &Seen) -> Area
    ensures answer { result ≡ law (kind_of app.old) order seen.now }
    ensures same { kind_of app.new ≡ kind_of app.old }
{
    app.frame(order, seen)
}

// Returns the area that the box computes if the box is of kind `kind`, and the area by the law of the kind otherwise.
fn box_or_law(app: &mut Box<dyn App + Send>, kind: KindId, order: Order, seen: &Seen) -> Area
    ensures answer { result ≡ law kind.0 order seen.now }
    ensures same { kind_of app.new ≡ kind_of app.old }
{
    if box_kind(app).0 == kind.0 {
        box_frame(app, order, seen)
    } else {
        law_area(kind, order, seen)
    }
}

/// Returns the area of an application of kind `kind` after a frame with this order. The box at the kind's index
/// computes the area if the box is of that kind. Otherwise the function computes the law itself. Therefore the result
/// follows the law of the kind, whatever boxes the rack has. The kinds of the boxes and the boxes at other indices do
/// not change.
// No clause depends on the precondition. Without a precondition, a function that takes boxes by `&mut` counts as a
// function that may create boxes. The same is true of each function that calls such a function without a
// precondition.
pub fn rack_frame(rack: &mut Rack, kind: KindId, order: Order, seen: &Seen) -> Area
    requires kind { kind.0 < 8 }
    ensures answer { result ≡ law kind.0 order seen.now }
    ensures kinds { map kind_of rack.new.boxes.items ≡ map kind_of rack.old.boxes.items }
    ensures others { OthersStay rack.old.boxes.items rack.new.boxes.items kind.0 }
{
    let place = usize::from(kind.0);
    if place < rack.boxes.len() {
        box_or_law(&mut rack.boxes[place], kind, order, seen)
    } else {
        law_area(kind, order, seen)
    }
}

/// Returns the area of an application of kind `kind` after a frame with this order. The rack of processor `proc`
/// computes the area as in `rack_frame`. If there is no such rack, the function computes the law itself. The kinds of
/// the boxes and the racks of other processors do not change.
pub fn racks_frame(
    racks: &mut [Rack],
    proc: ProcId,
    kind: KindId,
    order: Order,
    seen: &Seen,
) -> Area
    requires kind { kind.0 < 8 }
    ensures answer { result ≡ law kind.0 order seen.now }
    ensures kinds { map (λ r. map kind_of r.boxes.items) racks.new ≡ map (λ r. map kind_of r.boxes.items) racks.old }
    ensures others { OthersStay racks.old racks.new proc.0 }
{
    let place = usize::from(proc.0);
    if place < racks.len() {
        rack_frame(&mut racks[place], kind, order, seen)
    } else {
        law_area(kind, order, seen)
    }
}
