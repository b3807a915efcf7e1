//! The core of a flight, which makes the events of the flight one by one.

use crate::frames::end_frame;
use crate::moves::places_after;
use crate::nexts::{kept_place, next_kernel, next_of};
use crate::places::{Place, Places};
use crate::reads::{images_read, kernel_read};
use crate::stores::{frame_of, store};
use bank_words::{Event, kernel_encode, words};
use fail_stop::Snapshot;
use fail_stop::law::{machine_goes_on, readers_find};
use fail_stop::openings::opening_words;
use frame_model::Sys;
use scram_kernel::Kernel;
use scram_types::{Flown, NoMemory, ProcId, Row, Script, Spec};
use std::alloc::Global;

/// An event that is not the next of its actor, with the actor's next event, if there is one.
#[derive(Clone, Copy)]
pub struct Illegal {
    pub given: Event,
    pub next: Option<Event>,
}

/// The core of a flight of a specification and a script. It holds the state of the flight after the events that it
/// has made so far, which are its history.
pub struct Core<'a> {
    spec: &'a Spec,
    script: &'a Script,
    places: Places,
    stored: Vec<u64>,
    history: Vec<Event>,
    kernel: Kernel<'a>,
}

// A derived drop is laid out in the proof of each function that drops the value, and this one is a call.
impl Drop for Core<'_> {
    fn drop(self) {
        let Core {
            spec: _,
            script: _,
            places: _,
            stored: _,
            history: _,
            kernel: _,
        } = self;
    }
}

impl<'a> std::marker::Model for Core<'a> {
    ghost use Rattle.std.specs.Prelude.{vec_capacity, vec_len};
    ghost use Rattle.event_core.specs.Cores.{CoreKeeps, CoreParts, core_of};

    ghost Value = { CoreParts };

    ghost view = { λ c. core_of c.spec.now c.script.now c.places c.stored.items c.history.items };

    ghost invariant = { λ c. CoreKeeps c.spec.now c.script.now c.places c.stored.items c.history.items (vec_capacity c.history) (vec_len c.history) c.kernel };
}

impl<'a> Core<'a> {
    ghost use Rattle.std.specs.Prelude.{◌≡◌, ◌<◌, ◌/◌, ◌++◌, [], ◌∷◌, IfErr, IfOk, IsTrue, ◌↔◌, ◌≤◌, ◌+◌, ◌⊎◌, ◌^◌, length};
    ghost use Rattle.event_core.specs.Replays.{IsReplay};
    ghost use Rattle.fail_stop.specs.Events.{frame_of, next_kernel, next_of, next_of_actor};
    ghost use Rattle.fail_stop.specs.Drafts.{IsSnapshot};
    ghost use Rattle.fail_stop.specs.Flights.{word_in};
    ghost use Rattle.fail_stop.specs.ScriptFlights.{kernel_words};
    ghost use Rattle.frame_model.specs.Flights.{reports_of, rows_of};
    ghost use Rattle.scram_kernel.specs.Kernels.{rows_below};
    ghost use Rattle.event_core.specs.Counts.{notes_in};
    ghost use Rattle.event_core.specs.Cores.{HappensIn, IsNextIn, IsOverIn, IsWordIn, RefusesEvent, events_left_in, core_places, core_words, core_flight, frames_ended, next_event};
    ghost use Rattle.fault_script.specs.Fits.{Fits};
    ghost use Rattle.event_core.specs.Places.{HasLooked, kept_opening};

    /// Returns the core of a flight before the first event, with capacity for every event that can come. Returns an
    /// error only if memory runs out.
    pub fn open(alloc: Global, spec: &'a Spec, script: &'a Script) -> Result<Core<'a>, NoMemory>
        requires { Fits spec.now script.now }
        ensures spec { IfOk result (λ core. core.spec ≡ spec.now) }
        ensures script { IfOk result (λ core. core.script ≡ script.now) }
        ensures history { IfOk result (λ core. core.history ≡ []) }
        ensures places { IfOk result (λ core. core.places ≡ kept_opening) }
    {
        let history = Vec::with_capacity(alloc, events_of(spec, script))?;
        let kernel = Kernel::new(alloc, spec, script)?;
        let first = kernel_encode(&kernel.first());
        let stored = opening_words(alloc, script.frames, &first, &Sys::start(spec))?;
        Ok(Core {
            spec,
            script,
            places: opening_places(),
            stored,
            history,
            kernel,
        })
    }

    /// Returns the next event of processor `p`. Returns `None` if and only if the processor waits for the release,
    /// has halted for good, has flown all frames, or does not exist.
    pub fn next_of(&self, p: ProcId) -> Option<Event>
        ensures { result ≡ next_of (core_flight self.now) (core_places self.now) (core_words self.now) p.0 }
    {
        next_of(self.spec, self.script, &self.places, &self.stored, p)
    }

    /// Returns the next event of the kernel. Returns `None` if and only if the processor that the kernel notes next
    /// may not be noted yet, the kernel has made its last note, or the flight has no frame.
    pub fn next_kernel(&self) -> Option<Event>
        ensures { result ≡ next_kernel (core_flight self.now) (core_places self.now) (core_words self.now) }
    {
        next_kernel(self.spec, self.script, &self.places, &self.stored)
    }

    /// Returns the current frame of processor `p`, or the frame in which it halted. The processor must exist.
    pub fn frame_of(&self, p: ProcId) -> u32
        requires { p.0 < length self.now.spec.procs }
        ensures { result ≡ frame_of ((core_places self.now).proc p.0) }
    {
        frame_of(kept_place(&self.places.procs, p))
    }

    /// Returns the kernel's current frame.
    pub fn kernel_frame(&self) -> u32
        ensures { result ≡ (core_places self.now).frame }
    {
        self.places.frame
    }

    /// Returns the events so far. They are a schedule from the opening to the current places and stored words.
    pub fn history(&self) -> &[Event]
        ensures history { result.now ≡ self.now.history }
        ensures schedule { IsReplay (core_flight self.now) self.now.history (core_places self.now) (core_words self.now) }
        ensures few { length result.now < 2 ^ 32 }
    {
        &self.history
    }

    /// Returns the rows of the frames that have ended, which are the frames in which the kernel has noted every
    /// processor. They are the first rows of the one-thread trace.
    pub fn rows(&self) -> &[Row]
        ensures rows { result.now ≡ rows_below self.now.spec self.now.script (frames_ended self.now.spec self.now.places) }
        ensures noted { length result.now ≡ notes_in self.now.history / length self.now.spec.procs }
    {
        self.kernel.rows()
    }

    /// Returns the snapshot of processor `p`, which must have made all looks of its frame, but neither its flip nor
    /// its halt. The snapshot contains the kernel image of that frame and the image of every processor as of the
    /// start of that frame.
    pub fn snapshot(&self, p: ProcId) -> Snapshot
        requires known { p.0 < length self.now.spec.procs }
        requires looked { HasLooked (core_flight self.now) ((core_places self.now).proc p.0) }
        ensures { IsSnapshot self.now.spec self.now.script (frame_of ((core_places self.now).proc p.0)) result }
    {
        readers_find();
        let frame = self.frame_of(p);
        Snapshot {
            kernel: kernel_read(&self.stored, &self.kernel.image()),
            images: images_read(self.spec, &self.stored, frame),
        }
    }

    /// States that some actor has a next event if the flight is not over. The call has no effect.
    pub fn goes_on(&self)
        ensures { IsOverIn self.now ⊎ ((event : Event) × IsNextIn self.now event) }
    {
        let _places = &self.places;
        machine_goes_on();
    }

    /// Returns word `i` of the kernel image of the next frame. The kernel must have noted every processor in its
    /// current frame.
    pub fn kernel_word(&self, i: u8) -> u64
        requires word { i < 20 }
        requires noted { length self.now.spec.procs ≤ self.now.places.step }
        ensures { result ≡ word_in (kernel_words self.now.spec self.now.script (self.now.places.frame + 1)) i }
    {
        kernel_encode(&self.kernel.image())[usize::from(i)]
    }

    /// Returns `true` if no further event can come. In that case the flight has no frame, or each processor has flown
    /// all frames or has halted for good and the kernel has made its last note.
    pub fn over(&self) -> bool
        ensures { IsTrue result ↔ IsOverIn self.now }
    {
        let spec = self.spec;
        let script = self.script;
        let procs = spec.procs.items().len() as u32;
        let frames = script.frames;
        frames == 0 || self.places.frame == frames - 1 && self.places.step >= procs
    }

    /// Returns the rows and reports of a flight that is over. They are those of the one-thread trace, for any
    /// schedule.
    pub fn finish(self) -> Flown
        requires { IsOverIn self }
        ensures rows { result.rows ≡ rows_of self.entry.spec self.entry.script }
        ensures reports { result.reports ≡ reports_of self.entry.spec self.entry.script }
    {
        let Core {
            spec: _,
            script: _,
            places: _,
            stored: _,
            history: _,
            kernel,
        } = self;
        kernel.finish()
    }

    /// Returns the next event of the actor of `event`, or `None` if the actor has none. This is the result of
    /// `next_of` or of `next_kernel`.
    pub fn next_of_actor(&self, event: Event) -> Option<Event>
        ensures { result ≡ next_event self.now event }
    {
        match event {
            Event::Start(p) => self.next_of(p),
            Event::Look(p, _) => self.next_of(p),
            Event::Store(p, _) => self.next_of(p),
            Event::Flip(p) => self.next_of(p),
            Event::Done(p) => self.next_of(p),
            Event::Halt(p) => self.next_of(p),
            Event::KNote(_) => self.next_kernel(),
            Event::KStore(_) => self.next_kernel(),
            Event::Release => self.next_kernel(),
        }
    }

    /// Applies `event` if it is the next of its actor. Otherwise returns an error with the actor's next event and
    /// changes nothing. For a store of a processor, `word` must be the word of its draft. For a store of the kernel,
    /// `word` must be the word of the next frame's kernel image. Other events do not use `word`.
    pub fn step(&mut self, event: Event, word: u64) -> Result<(), Illegal>
        requires { IsNextIn self.old event → IsWordIn self.old event word }
        ensures spec { self.new.spec ≡ self.old.spec }
        ensures script { self.new.script ≡ self.old.script }
        ensures next { IfOk result (λ _. IsNextIn self.old event) }
        ensures happens { IfOk result (λ _. HappensIn self.old event self.new) }
        ensures fewer { IfOk result (λ _. events_left_in self.new < events_left_in self.old) }
        ensures history { IfOk result (λ _. self.new.history ≡ self.old.history ++ event ∷ []) }
        ensures illegal { IfErr result (RefusesEvent self.old event) }
        ensures same { IfErr result (λ _. self.new ≡ self.old) }
    {
        let next = self.next_of_actor(event);
        if !is_event(next, event) {
            return Err(Illegal { given: event, next });
        }
        store(&mut self.stored, &self.places, event, word);
        self.places = places_after(self.script, &self.places, event);
        self.history.push_reserved(event);
        if ends_frame(self.spec, event) {
            end_frame(
                self.spec,
                self.script,
                &self.places,
                &self.stored,
                &mut self.kernel,
            );
        }
        Ok(())
    }
}

/// Returns the rows and reports of two flights that are over. Both flights must have the same specification and the
/// same script. The results are equal, for any two schedules.
pub fn finish_both<'a>(one: Core<'a>, other: Core<'a>) -> (Flown, Flown)
    requires spec { other.spec ≡ one.spec }
    requires script { other.script ≡ one.script }
    requires one_over { IsOverIn one }
    requires other_over { IsOverIn other }
    ensures equal_rows { result.1.rows ≡ result.0.rows }
    ensures equal_reports { result.1.reports ≡ result.0.reports }
    ensures rows { result.0.rows ≡ rows_of one.entry.spec one.entry.script }
    ensures reports { result.0.reports ≡ reports_of one.entry.spec one.entry.script }
{
    (one.finish(), other.finish())
}

ghost use Rattle.std.specs.Prelude.{◌≡◌, ◌==◌, ◌*◌, ◌+◌, ◌<◌, ◌^◌, Some, IsTrue, ◌↔◌, length};
ghost use Rattle.scram_types.specs.Specification.{IsSpec};
ghost use Rattle.frame_model.specs.Flights.{reports_of, rows_of};
ghost use Rattle.event_core.specs.Cores.{core_places, ends_frame, core_flight, IsOverIn};
ghost use Rattle.event_core.specs.Places.{kept_opening};
ghost use Rattle.event_core.specs.declared.cores.Illegal.{Illegal};

fn opening_places() -> Places
    ensures { result ≡ kept_opening }
{
    Places {
        procs: [Place::At(0, 0); 8],
        frame: 0,
        step: 0,
    }
}

// Returns the maximum number of events of a flight.
fn events_of(spec: &Spec, script: &Script) -> usize
    ensures known { IsSpec spec.now }
    ensures events { result
        ≡ script.now.frames * (length spec.now.procs * (length spec.now.procs + 8 * length spec.now.apps + 3) + (length spec.now.procs + 21)) }
{
    let procs = spec.procs.items().len();
    let each = procs + words(spec) as usize + 3;
    script.frames as usize * (procs * each + (procs + 21))
}

fn is_event(next: Option<Event>, event: Event) -> bool
    ensures { IsTrue result ↔ (next ≡ Some event) }
{
    next == Some(event)
}

// Returns `true` if `event` is the last note of a frame, which is the note of the last processor.
fn ends_frame(spec: &Spec, event: Event) -> bool
    ensures { result ≡ ends_frame spec.now event }
{
    match event {
        Event::KNote(p) => usize::from(p.0) + 1 == spec.procs.items().len(),
        Event::Start(_) => false,
        Event::Look(_, _) => false,
        Event::Store(_, _) => false,
        Event::Flip(_) => false,
        Event::Done(_) => false,
        Event::Halt(_) => false,
        Event::KStore(_) => false,
        Event::Release => false,
    }
}
