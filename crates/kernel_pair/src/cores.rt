//! A flight of the kernel on two units, event by event.

use crate::drafts::draft;
use crate::events::{PairEvent, UnitHalt};
use crate::logs::end_frame;
use crate::machines::PairMachine;
use crate::setups::Setup;
use app_model::Boxes;
use bank_words::kernel_encode;
use fail_stop::flyers::make_flyers;
use fail_stop::{Flyer, Snapshot};
use scram_kernel::Kernel;
use scram_types::{Flown, NoMemory, ProcId, Row, Script, Spec};
use std::alloc::Global;

/// The core of a flight of a specification and a script, with the kernel on two units, one of which may halt. It
/// holds the state of the flight after the events that it has made so far.
pub struct PairCore<'a> {
    machine: PairMachine<'a>,
    first: Kernel<'a>,
    second: Kernel<'a>,
    flyers: Vec<Flyer>,
}

// A derived drop is laid out in the proof of each function that drops the value, and this one is a call.
impl Drop for PairCore<'_> {
    fn drop(self) {
        let PairCore {
            machine: _,
            first: _,
            second: _,
            flyers: _,
        } = self;
    }
}

impl<'a> std::marker::Model for PairCore<'a> {
    ghost use Rattle.kernel_pair.specs.Cores.{PairCoreKeeps};
    ghost use Rattle.kernel_pair.specs.Machines.{PairParts};

    ghost Value = { PairParts };

    ghost view = { λ c. c.machine };

    ghost invariant = { λ c. PairCoreKeeps c.machine c.first c.second c.flyers.items };
}

impl<'a> PairCore<'a> {
    ghost use Rattle.std.specs.Prelude.{◌≡◌, ◌<◌, [], IfErr, IfOk, IsTrue, ◌↔◌, Some};
    ghost use Rattle.scram_types.specs.Specification.{IsSpec};
    ghost use Rattle.fault_script.specs.Fits.{Fits};
    ghost use Rattle.fail_stop.specs.Drafts.{IsSnapshot};
    ghost use Rattle.frame_model.specs.Flights.{reports_of, rows_of};
    ghost use Rattle.kernel_pair.specs.Cores.{IsKernelOf, IsTurn, rows_noted};
    ghost use Rattle.kernel_pair.specs.Laws.{PairHolds};
    ghost use Rattle.kernel_pair.specs.Machines.{IsPairNextIn, IsPairOverIn, IsPairStep, frame_to_make_in, next_unit_in, pair_flight, pair_in};
    ghost use Rattle.kernel_pair.specs.Pairs.{IsPairOpening, IsPairReplay};
    ghost use Rattle.kernel_pair.specs.declared.events.PairEvent.TheVariants.{Fly, Note, Store};

    /// Creates a flight before its first event. `halt` is the halt of one of the units, if there is one. All memory
    /// of the flight is allocated here: the rows and reports of both units, and room for every possible event.
    ///
    /// # Errors
    ///
    /// Returns an error if memory runs out.
    pub fn open(
        alloc: Global,
        spec: &'a Spec,
        script: &'a Script,
        halt: Option<UnitHalt>,
        boxes: Boxes,
    ) -> Result<PairCore<'a>, NoMemory>
        requires script { Fits spec.now script.now }
        ensures spec { IfOk result (λ core. core.spec ≡ spec.now) }
        ensures script { IfOk result (λ core. core.script ≡ script.now) }
        ensures halt { IfOk result (λ core. core.halt ≡ halt) }
        ensures opening { IfOk result (λ core. IsPairOpening (pair_flight core) (pair_in core)) }
        ensures events { IfOk result (λ core. core.events ≡ []) }
    {
        let setup = Setup { spec, script, halt };
        let flyers = make_flyers(alloc, boxes)?;
        let first = Kernel::new(alloc, spec, script)?;
        let second = Kernel::new(alloc, spec, script)?;
        let machine = PairMachine::open(alloc, &setup, &kernel_encode(&first.image()))?;
        machine.holds();
        Ok(PairCore {
            machine,
            first,
            second,
            flyers,
        })
    }

    /// Returns the next event of unit `unit`, which is 0 or 1. Returns `None` if and only if the unit waits for a
    /// processor or for the other unit, has halted or has made its last note, or the flight has no frame.
    pub fn next(&self, unit: u8) -> Option<PairEvent>
        requires { unit < 2 }
        ensures { result ≡ next_unit_in self.now unit }
    {
        self.machine.next(unit)
    }

    /// Makes `event` if it is a next event of its actor. Otherwise nothing changes.
    ///
    /// # Errors
    ///
    /// Returns the event if and only if it is not a next event of its actor. An event whose processor, unit or word
    /// does not exist is never a next event.
    pub fn step(&mut self, event: PairEvent) -> Result<(), PairEvent>
        ensures next { IfOk result (λ _. IsPairNextIn self.old event) }
        ensures step { IfOk result (λ _. IsPairStep self.old event self.new) }
        ensures not_next { IfErr result (λ _. IsPairNextIn self.old event → ⊥) }
        ensures back { IfErr result (λ given. given ≡ event) }
        ensures same { IfErr result (λ _. self.new ≡ self.old) }
    {
        if !self.machine.is_next(event) {
            return Err(event);
        }
        self.make(event);
        Ok(())
    }

    // Makes `event`, which must be a next event of its actor.
    fn make(&mut self, event: PairEvent)
        requires { IsPairNextIn self.old event }
        ensures { IsPairStep self.old event self.new }
    {
        match event {
            PairEvent::Fly(p, u) => self.fly(p, u),
            PairEvent::Note(u, p) => self.note(u, p),
            PairEvent::Store(u, i) => self.store(u, i),
            PairEvent::Ready(_) => self.turn(event),
            PairEvent::Meet(_) => self.turn(event),
            PairEvent::Release(_) => self.turn(event),
            PairEvent::Stop(_) => self.turn(event),
        }
    }

    // Makes the next frame of processor `p` by the words of unit `u`.
    fn fly(&mut self, p: ProcId, u: u8)
        requires { IsPairNextIn self.old (Fly p u) }
        ensures { IsPairStep self.old (Fly p u) self.new }
    {
        let words = draft(&mut self.flyers, &self.machine, p, u);
        self.machine.make(PairEvent::Fly(p, u), &words, 0);
    }

    // Notes processor `p` in unit `u`. If this is the last note of the unit's frame, the unit's kernel ends the frame.
    fn note(&mut self, u: u8, p: ProcId)
        requires { IsPairNextIn self.old (Note u p) }
        ensures { IsPairStep self.old (Note u p) self.new }
    {
        self.machine.holds();
        self.machine.make(PairEvent::Note(u, p), &[0; 64], 0);
        if u == 0 {
            end_frame(&self.machine, u, &mut self.first);
        } else {
            end_frame(&self.machine, u, &mut self.second);
        }
    }

    // Stores word `i` of the kernel image of the next frame in unit `u`.
    fn store(&mut self, u: u8, i: u8)
        requires { IsPairNextIn self.old (Store u i) }
        ensures { IsPairStep self.old (Store u i) self.new }
    {
        self.machine.holds();
        let words = kernel_encode(&self.kernel(u).image());
        self.machine
            .make(PairEvent::Store(u, i), &[0; 64], words[usize::from(i)]);
    }

    // Makes `event`, which must be a `Ready`, `Meet`, `Release` or `Stop`.
    fn turn(&mut self, event: PairEvent)
        requires turn { IsTurn event }
        requires next { IsPairNextIn self.old event }
        ensures { IsPairStep self.old event self.new }
    {
        self.machine.holds();
        self.machine.make(event, &[0; 64], 0);
    }

    // Returns the kernel of unit `u`. The kernel has ended the frames in which the unit has noted every processor.
    fn kernel(&self, u: u8) -> &Kernel<'a>
        requires { u < 2 }
        ensures { IsKernelOf self.now u result.now }
    {
        if u == 0 { &self.first } else { &self.second }
    }

    /// Returns the events so far. They are a schedule from the opening to the current state.
    pub fn events(&self) -> &[PairEvent]
        ensures events { result.now ≡ self.now.events }
        ensures replay { IsPairReplay (pair_flight self.now) self.now.halt self.now.events (pair_in self.now) }
    {
        self.machine.events()
    }

    /// Returns the rows of the frames in which unit `unit`, which is 0 or 1, has noted every processor. They are the
    /// first rows of the one-thread trace.
    pub fn rows(&self, unit: u8) -> &[Row]
        requires { unit < 2 }
        ensures { result.now ≡ rows_noted self.now unit }
    {
        self.kernel(unit).rows()
    }

    /// Returns the snapshot of processor `p`, which may make frame `frame` by the words of unit `unit`. The snapshot
    /// contains the kernel image of that frame and the image of every processor as of the start of the frame.
    pub fn snapshot(&self, p: ProcId, unit: u8, frame: u32) -> Snapshot
        requires next { IsPairNextIn self.now (Fly p unit) }
        requires frame { frame_to_make_in self.now p.0 ≡ Some frame }
        ensures { IsSnapshot self.now.spec self.now.script frame result }
    {
        self.machine.snapshot(p, unit, frame)
    }

    /// States the facts that hold in each state of a flight, and has no effect. Both units have noted every processor
    /// in a frame before either unit releases the next frame, unless one unit has halted. Each processor finds the
    /// words and the images of its frame. At least one unit has not halted. If the pair is not over, some processor
    /// or unit has a next event.
    pub fn holds(&self)
        ensures facts { IsSpec self.now.spec }
        ensures holds { PairHolds self.now.spec self.now.script self.now.halt (pair_in self.now) }
    {
        self.machine.holds();
    }

    /// Returns `true` if no further event is possible. In that case the flight has no frame, or each processor has
    /// made all frames or has halted for good and each unit that has not halted has made its last note.
    pub fn over(&self) -> bool
        ensures { IsTrue result ↔ IsPairOverIn self.now }
    {
        self.machine.over()
    }

    /// Returns the rows and reports of a unit that has not halted. The flight must be over. The rows and reports are
    /// those of the one-thread trace.
    pub fn finish(self) -> Flown
        requires { IsPairOverIn self }
        ensures rows { result.rows ≡ rows_of self.entry.spec self.entry.script }
        ensures reports { result.reports ≡ reports_of self.entry.spec self.entry.script }
    {
        self.machine.holds();
        let stopped = self.machine.has_halted(0);
        let PairCore {
            machine: _,
            first,
            second,
            flyers: _,
        } = self;
        if stopped {
            second.finish()
        } else {
            first.finish()
        }
    }
}
