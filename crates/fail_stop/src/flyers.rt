//! Processors in flight. The fields are public because contracts refer to them.

ghost use Rattle.std.specs.Prelude.{◌≡◌, ◌<◌, ◌+◌, ◌∷◌, IfOk, ℕ, None, Some, false, length, map};
ghost use Rattle.std.specs.Vec.Iter.{into_iter_items, into_iter_len};
ghost use Rattle.scram_types.specs.Scripts.{ScriptParts};
ghost use Rattle.scram_types.specs.Specification.{IsSpec};
ghost use Rattle.frame_model.specs.Flights.{draft};
ghost use Rattle.fail_stop.specs.Drafts.{IsSnapshot, draft_made};
ghost use Rattle.fail_stop.specs.declared.flyers.Unit.TheVariants.{Up};
ghost use Rattle.fail_stop.specs.Events.{At};
ghost use Rattle.fail_stop.specs.Flights.{Flight};
ghost use Rattle.fail_stop.specs.Flyers.{AreFlyersAt, flyer_halted, flyer_started, is_down, unit_proc, unit_rack};

use crate::snapshots::Snapshot;
use crate::units::{Halted, Live};
use app_model::{Boxes, Rack};
use scram_types::{Image, NoMemory, ProcId, Spec};
use std::alloc::Global;
use std::vec::IntoIter;

/// A processor that is live or has halted.
#[derive(Drop)]
pub enum Unit {
    Up(Live),
    Down(Halted),
}

/// A processor in flight. `spare` holds the boxes for its restart, or `None` once it has restarted.
pub struct Flyer {
    pub unit: Unit,
    pub spare: Option<Rack>,
}

// A derived drop is laid out in the proof of each function that drops the value, and this one is a call.
impl Drop for Flyer {
    fn drop(self) {
        let Flyer { unit: _, spare: _ } = self;
    }
}

impl Flyer {
    /// Returns processor `proc` before its first frame. It has the boxes of `rack`, and those of `spare` for its
    /// restart.
    pub fn new(proc: ProcId, rack: Rack, spare: Rack) -> Flyer
        requires proc { proc.0 < 8 }
        ensures unit { result.unit ≡ Up (record { proc = proc; rack = rack }) }
        ensures spare { result.spare ≡ Some spare }
    {
        Flyer {
            unit: Unit::Up(Live::new(proc, rack)),
            spare: Some(spare),
        }
    }

    /// Returns the processor's number.
    pub fn proc(&self) -> ProcId
        ensures { result.0 ≡ unit_proc self.now.unit }
    {
        match &self.unit {
            Unit::Up(live) => live.proc(),
            Unit::Down(halted) => halted.proc(),
        }
    }

    /// Returns `true` if the processor has halted and has not restarted since.
    pub fn has_halted(&self) -> bool
        ensures { result ≡ is_down self.now.unit }
    {
        match &self.unit {
            Unit::Up(_) => false,
            Unit::Down(_) => true,
        }
    }

    /// Starts a frame of the processor. A halted processor becomes live again with its spare rack, if it has one.
    /// Otherwise nothing changes.
    pub fn start(&mut self)
        requires few { unit_proc self.old.unit < 8 }
        ensures { self.new ≡ flyer_started self.old }
    {
        if self.has_halted() {
            let proc = self.proc();
            if let Some(rack) = self.spare.take() {
                self.unit = Unit::Up(Live::new(proc, rack));
            }
        }
    }

    /// Halts the processor in frame `frame` and drops its boxes. If the processor has halted already, nothing
    /// changes.
    pub fn halt(&mut self, frame: u32)
        ensures { self.new ≡ flyer_halted frame self.old }
    {
        if !self.has_halted() {
            let proc = self.proc();
            self.unit = Unit::Down(Halted { proc, frame });
        }
    }

    /// Sets `image` to the draft that the processor makes of a snapshot, as [`Live::draft`] does. The processor must be
    /// live.
    pub fn draft(&mut self, spec: &Spec, snap: &Snapshot, image: &mut Image)
        requires lives { is_down self.old.unit ≡ false }
        requires few { unit_proc self.old.unit < 8 }
        ensures image { image.new ≡ draft_made spec.now snap.now (unit_proc self.old.unit) }
        ensures trace { (script : ScriptParts) (f : ℕ) → IsSpec spec.now → unit_proc self.old.unit < length spec.now.procs
            → IsSnapshot spec.now script f snap.now → image.new ≡ draft spec.now script (unit_proc self.old.unit) f }
        ensures lives { is_down self.new.unit ≡ false }
        ensures proc { unit_proc self.new.unit ≡ unit_proc self.old.unit }
        ensures spare { self.new.spare ≡ self.old.spare }
    {
        match &mut self.unit {
            Unit::Up(live) => live.draft(spec, snap, image),
            Unit::Down(_) => unreachable!(),
        }
    }
}

/// Returns eight processors before their first frame, with the racks and the spare racks of `boxes`.
///
/// # Errors
///
/// Returns an error if memory runs out.
pub fn make_flyers(alloc: Global, boxes: Boxes) -> Result<Vec<Flyer>, NoMemory>
    ensures flyers { (m : Flight) → IfOk result (λ flyers. AreFlyersAt m (λ p. At 0 0) flyers.items) }
    ensures racks { IfOk result (λ flyers. map (λ flyer. unit_rack flyer.unit) flyers.items ≡ map Some boxes.racks.items) }
    ensures spares { IfOk result (λ flyers. map (λ flyer. flyer.spare) flyers.items ≡ map Some boxes.spares.items) }
{
    let mut racks = boxes.racks.into_iter();
    let mut spares = boxes.spares.into_iter();
    let mut flyers = Vec::with_capacity(alloc, 8)?;
    for p in 0..8 {
        let rack = next_rack(&mut racks);
        let spare = next_rack(&mut spares);
        flyers.push(Flyer::new(ProcId(p), rack, spare))?;
    }
    Ok(flyers)
}

// Removes and returns the first of the racks that remain.
fn next_rack(racks: &mut IntoIter<Rack>) -> Rack
    requires some { 0 < into_iter_len racks.old }
    ensures first { into_iter_items racks.old ≡ result ∷ into_iter_items racks.new }
    ensures fewer { into_iter_len racks.new + 1 ≡ into_iter_len racks.old }
{
    match racks.next() {
        Some(rack) => rack,
        None => unreachable!(),
    }
}
