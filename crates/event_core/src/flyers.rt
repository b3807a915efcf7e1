//! Processors that fly with a core. The fields are public because contracts refer to them.

ghost use Rattle.std.specs.Prelude.{◌≡◌, ◌<◌, IfOk, IfSome, Some, length, map, vec_len, ℕ};
ghost use Rattle.event_core.specs.Cores.{IsNextIn, IsWordIn, core_places, core_flight};
ghost use Rattle.event_core.specs.Flyers.{FlyersFitAfter, FlyersFitCore, FlyersFit, IsLastDraft};
ghost use Rattle.event_core.specs.Places.{HasLooked};
ghost use Rattle.bank_words.specs.declared.events.Event.TheVariants.{Halt as HaltEvent, Start as StartEvent};
ghost use Rattle.fail_stop.specs.Events.{At, frame_of};
ghost use Rattle.fail_stop.specs.Flights.{word_in};
ghost use Rattle.fail_stop.specs.Flyers.{unit_rack};
ghost use Rattle.fail_stop.specs.ScriptFlights.{draft_words, image_words};
ghost use Rattle.frame_model.specs.Flights.{draft};
ghost use Rattle.scram_types.specs.Scripts.{ScriptParts};
ghost use Rattle.scram_types.specs.Specification.{Parts};

use crate::cores::Core;
use app_model::Boxes;
use bank_words::{Event, encode};
use fail_stop::flyers::make_flyers;
use fail_stop::{Draft, Flyer};
use scram_types::{Image, NoMemory, ProcId, Spec};
use std::alloc::Global;

/// Eight processors that fly with a core, in the order of their numbers. `drafted` contains the last draft of each
/// processor, or `None` before its first draft.
pub struct Flyers {
    pub all: Vec<Flyer>,
    pub drafted: [Option<Draft>; 8],
}

// A derived drop is laid out in the proof of each function that drops the value, and this one is a call.
impl Drop for Flyers {
    fn drop(self) {
        let Flyers { all: _, drafted: _ } = self;
    }
}

impl Flyers {
    /// Returns eight processors before their first frame, with the racks and the spare racks of `boxes`.
    ///
    /// # Errors
    ///
    /// Returns an error if memory runs out.
    // Neither the body nor a postcondition depends on the precondition, which every `Boxes` satisfies. Without it,
    // Rattle lists this function, whose result contains boxes, under `hides` as a function that may create boxes.
    pub fn open(alloc: Global, boxes: Boxes) -> Result<Flyers, NoMemory>
        requires { vec_len boxes.racks ≡ 8 }
        ensures fits { (spec : Parts) (script : ScriptParts) → IfOk result (λ flyers. FlyersFit spec script (λ p. At 0 0) flyers) }
        ensures racks { IfOk result (λ flyers. map (λ flyer. unit_rack flyer.unit) flyers.all.items ≡ map Some boxes.racks.items) }
        ensures spares { IfOk result (λ flyers. map (λ flyer. flyer.spare) flyers.all.items ≡ map Some boxes.spares.items) }
    {
        let all = make_flyers(alloc, boxes)?;
        Ok(Flyers {
            all,
            drafted: [None; 8],
        })
    }

    /// Returns the word that `Core::step` takes for `event`, and updates the processors as the event requires. The
    /// event must be the next of its actor. A processor makes one draft in a frame, before its first store. A halt
    /// event halts the processor, and the start event of its restart starts it again with its spare rack.
    pub fn word(&mut self, core: &Core, spec: &Spec, event: Event) -> u64
        requires spec { core.now.spec ≡ spec.now }
        requires next { IsNextIn core.now event }
        requires fits { FlyersFitCore core.now self.old }
        ensures word { IsWordIn core.now event result }
        ensures fits { FlyersFitAfter core.now event self.new }
    {
        let _procs = spec.procs.items().len();
        match event {
            Event::Store(p, i) => self.draft_word(core, spec, p, i),
            Event::KStore(i) => core.kernel_word(i),
            Event::Start(p) => {
                self.start(core, p);
                0
            }
            Event::Halt(p) => {
                self.halt(core, p);
                0
            }
            Event::Look(_, _) => 0,
            Event::Flip(_) => 0,
            Event::Done(_) => 0,
            Event::KNote(_) => 0,
            Event::Release => 0,
        }
    }

    fn start(&mut self, core: &Core, p: ProcId)
        requires known { p.0 < length core.now.spec.procs }
        requires few { p.0 < 8 }
        requires next { IsNextIn core.now (StartEvent p) }
        requires fits { FlyersFitCore core.now self.old }
        ensures fits { FlyersFitAfter core.now (StartEvent p) self.new }
    {
        self.all[usize::from(p.0)].start();
    }

    fn halt(&mut self, core: &Core, p: ProcId)
        requires known { p.0 < length core.now.spec.procs }
        requires few { p.0 < 8 }
        requires fits { FlyersFitCore core.now self.old }
        ensures fits { FlyersFitAfter core.now (HaltEvent p) self.new }
    {
        self.all[usize::from(p.0)].halt(core.frame_of(p));
    }

    // Returns word `i` of the draft of processor `p` in its current frame.
    fn draft_word(&mut self, core: &Core, spec: &Spec, p: ProcId, i: u8) -> u64
        requires spec { core.now.spec ≡ spec.now }
        requires known { p.0 < length spec.now.procs }
        requires few { p.0 < 8 }
        requires looked { HasLooked (core_flight core.now) ((core_places core.now).proc p.0) }
        requires i { i < 64 }
        requires fits { FlyersFitCore core.now self.old }
        ensures word { result ≡ word_in (draft_words core.now.spec core.now.script p.0 (frame_of ((core_places core.now).proc p.0))) i }
        ensures fits { FlyersFitCore core.now self.new }
    {
        let image = self.image(core, spec, p);
        stored_word(&image, i)
    }

    // Returns the draft of processor `p` in its current frame: the last draft if it is a draft of that frame, or else
    // a new draft.
    fn image(&mut self, core: &Core, spec: &Spec, p: ProcId) -> Image
        requires spec { core.now.spec ≡ spec.now }
        requires known { p.0 < length spec.now.procs }
        requires few { p.0 < 8 }
        requires looked { HasLooked (core_flight core.now) ((core_places core.now).proc p.0) }
        requires fits { FlyersFitCore core.now self.old }
        ensures image { result ≡ draft core.now.spec core.now.script p.0 (frame_of ((core_places core.now).proc p.0)) }
        ensures fits { FlyersFitCore core.now self.new }
    {
        if let Some(image) = drafted_in(&self.drafted[usize::from(p.0)], core.frame_of(p)) {
            return image;
        }
        let _procs = spec.procs.items().len();
        let snap = core.snapshot(p);
        let mut image = [0; 64];
        self.all[usize::from(p.0)].draft(spec, &snap, &mut image);
        self.drafted[usize::from(p.0)] = Some(Draft {
            frame: snap.kernel.frame,
            image,
        });
        image
    }
}

// Returns word `i` of an image, encoded for storage.
#[tactic(auto, using(fail_stop::proofs::OpeningLists::encoded_at))]
fn stored_word(image: &Image, i: u8) -> u64
    requires { i < 64 }
    ensures { result ≡ word_in (image_words image.now) i }
{
    encode(image[usize::from(i)])
}

// Returns the image of the draft `drafted`, or `None` if there is no draft or it is of another frame than `frame`.
fn drafted_in(drafted: &Option<Draft>, frame: u32) -> Option<Image>
    ensures { (spec : Parts) (script : ScriptParts) (p : ℕ) → IsLastDraft spec script p drafted.now
        → IfSome result (λ image. image ≡ draft spec script p frame) }
{
    match drafted {
        Some(made) => {
            if made.frame == frame {
                Some(made.image)
            } else {
                None
            }
        }
        None => None,
    }
}
