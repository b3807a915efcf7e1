//! Processors, live and halted. The fields are public because contracts refer to them.

ghost use Rattle.std.specs.Prelude.{◌≡◌, ◌<◌, length, ℕ};
ghost use Rattle.scram_types.specs.Scripts.{ScriptParts};
ghost use Rattle.scram_types.specs.Specification.{IsSpec};
ghost use Rattle.frame_model.specs.Flights.{draft};
ghost use Rattle.fail_stop.specs.Drafts.{IsSnapshot, draft_made};

use crate::drafts::{Setting, areas_shown, make_slots};
use crate::law::drafts_are_of_traces;
use crate::snapshots::Snapshot;
use app_model::Rack;
use frame_model::sights::seen_by_all;
use frame_model::tasks_of;
use scram_types::{Image, ProcId, Spec};

/// A processor that has not halted, with its boxes.
#[derive(Drop)]
pub struct Live {
    pub proc: ProcId,
    pub rack: Rack,
}

/// A processor that has halted, with the frame in which it halted. It has no boxes.
#[derive(Drop)]
pub struct Halted {
    pub proc: ProcId,
    pub frame: u32,
}

impl Live {
    /// Returns processor `proc` with the boxes of `rack`.
    // No postcondition depends on the precondition. Without it, Rattle lists this function, whose result contains
    // boxes, and each of its callers without a precondition, under `hides` as a function that may create boxes.
    pub fn new(proc: ProcId, rack: Rack) -> Live
        requires proc { proc.0 < 8 }
        ensures proc { result.proc ≡ proc }
        ensures rack { result.rack ≡ rack }
    {
        Live { proc, rack }
    }

    /// Returns the processor's number.
    pub fn proc(&self) -> ProcId
        ensures { result ≡ self.now.proc }
    {
        self.proc
    }

    /// Sets `image` to the image of this processor after the snapshot's frame. The area of each application that the
    /// processor hosts in that frame is the result of one call of the processor's rack. The other words are those of
    /// the processor's image in the snapshot. If the snapshot belongs to a frame of a script, the image is the
    /// processor's draft in that frame of the one-thread trace.
    pub fn draft(&mut self, spec: &Spec, snap: &Snapshot, image: &mut Image)
        requires proc { self.old.proc.0 < 8 }
        ensures image { image.new ≡ draft_made spec.now snap.now self.old.proc.0 }
        ensures trace { (script : ScriptParts) (f : ℕ) → IsSpec spec.now → self.old.proc.0 < length spec.now.procs → IsSnapshot spec.now script f snap.now
            → image.new ≡ draft spec.now script self.old.proc.0 f }
        ensures proc { self.new.proc ≡ self.old.proc }
    {
        let kernel = &snap.kernel;
        let areas = areas_shown(snap);
        let mut seen = seen_by_all(spec, &areas, kernel.world, &kernel.env);
        let setting = Setting {
            spec,
            tasks: tasks_of(spec, &kernel.mode, kernel.frame),
            snap,
        };
        *image = snap.images[usize::from(self.proc.0)];
        make_slots(self.proc, &mut self.rack, &setting, &mut seen, image);
        drafts_are_of_traces();
    }

    /// Halts the processor in frame `frame` and drops its boxes.
    pub fn halt(self, frame: u32) -> Halted
        ensures proc { result.proc ≡ self.proc }
        ensures frame { result.frame ≡ frame }
    {
        Halted {
            proc: self.proc,
            frame,
        }
    }
}

impl Halted {
    /// Returns the processor's number.
    pub fn proc(&self) -> ProcId
        ensures { result ≡ self.now.proc }
    {
        self.proc
    }

    /// Returns the frame in which the processor halted.
    pub fn frame(&self) -> u32
        ensures { result ≡ self.now.frame }
    {
        self.frame
    }

    /// Restarts the processor with the boxes of `rack`.
    pub fn restart(self, rack: Rack) -> Live
        requires proc { self.proc.0 < 8 }
        ensures proc { result.proc ≡ self.proc }
        ensures rack { result.rack ≡ rack }
    {
        Live::new(self.proc, rack)
    }
}
