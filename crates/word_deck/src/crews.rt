//! Processors at their seats. The type `Crew` guarantees that its unit has the number of the seat's processor. It
//! also guarantees that the unit and the seat's processor have both halted, or that neither has halted. The fields
//! are public because contracts refer to them.

ghost use Rattle.std.specs.Prelude.{◌≡◌, ◌<◌, IfSome, Some, false};
ghost use Rattle.fail_stop.specs.Flyers.{IsUnitAt};
ghost use Rattle.word_table.specs.Tables.{IsAwaitedImage, frame_end, proc_of, seat_place, started_place};

use crate::frames::{commit, halt_after, look_at_all};
use crate::turns::Turn;
use app_model::Rack;
use bank_words::{KernelImage, kernel_decode};
use coverage_check::Mission;
use fail_stop::law::flights_are_of_traces;
use fail_stop::{Flyer, Snapshot};
use fault_script::{halt_in, restart_of};
use scram_types::Image;
use word_table::{Seat, WordTable};

/// A processor of a flight at its seat, with the images of its last looks and its last draft.
#[derive(Drop)]
pub struct Crew {
    pub seat: Seat,
    pub flyer: Flyer,
    pub(crate) snap: Snapshot,
    pub(crate) image: Image,
    ghost keeps: { IsUnitAt (proc_of seat) (seat_place seat) flyer.unit },
}

impl Crew {
    ghost use Rattle.std.specs.Prelude.{◌↔◌, ◌+◌, MatchOption, if◌then◌else◌, length};
    ghost use Rattle.scram_types.specs.Lookups.{proc_id};
    ghost use Rattle.frame_model.specs.Storage.{kernel_image};
    ghost use Rattle.fail_stop.specs.Drafts.{IsSnapshot};
    ghost use Rattle.fail_stop.specs.Ends.{IsDone};
    ghost use Rattle.fail_stop.specs.declared.flyers.Unit.TheVariants.{Up};
    ghost use Rattle.fail_stop.specs.Events.{At, frame_of, is_halted};
    ghost use Rattle.word_table.specs.Actors.{Waits, mission_flight};
    ghost use Rattle.word_table.specs.Tables.{IsSeatOf, flight_in, mission_in, tries_of};
    ghost use Rattle.word_deck.specs.Frames.{IsSeatDraft};
    ghost use Rattle.word_deck.specs.Crews.{IsCrewOf, CrewFlies, is_done, place_after, tries_after};
    ghost use Rattle.word_table.specs.declared.tables.WordTable as word_tables;
    ghost use Rattle.word_deck.specs.declared.turns.Turn.TheVariants.{Finished, Worked};

    /// Returns the crew of a processor at its opening place, with the boxes `rack`, and with the boxes `spare` for a
    /// restart.
    pub fn processor(seat: Seat, rack: Rack, spare: Rack) -> Crew
        requires opening { seat_place seat ≡ At 0 0 }
        requires few { proc_of seat < 8 }
        ensures seat { result.seat ≡ seat }
        ensures unit { result.flyer.unit ≡ Up (record { proc = proc_id (proc_of seat); rack = rack }) }
        ensures spare { result.flyer.spare ≡ Some spare }
        ensures fits { (words : word_tables.WordTable) → IsSeatOf words seat → IsCrewOf words result }
    {
        let flyer = Flyer::new(seat.proc(), rack, spare);
        let snap = Snapshot {
            kernel: kernel_decode(&[0; 20]),
            images: [[0; 64]; 8],
        };
        Crew {
            seat,
            flyer,
            snap,
            image: [0; 64],
        }
    }

    /// Tries to fly the frame for which the processor waits, whole or up to the processor's halt in it. A processor
    /// that has halted restarts with its spare rack at the start of the frame of its restart. Returns `NotYet` only
    /// if the release word that the call loads shows that the frame is not yet released. Returns `Finished` if and
    /// only if the processor has then flown all frames or has halted for good. This method does not block.
    pub fn turn(&mut self, mission: &Mission, words: &WordTable) -> Turn
        requires mission { mission_in words.now ≡ mission.now }
        requires fits { IsCrewOf words.now self.old }
        ensures fits { IsCrewOf words.now self.new }
        ensures proc { proc_of self.new.seat ≡ proc_of self.old.seat }
        ensures place { seat_place self.new.seat ≡ place_after result (flight_in words.now) (proc_of self.old.seat) (seat_place self.old.seat) }
        ensures finished { (result ≡ Finished) ↔ IsDone (flight_in words.now) (proc_of self.old.seat) (seat_place self.new.seat) }
        ensures tries { tries_of self.new.seat ≡ tries_after result (tries_of self.old.seat) }
    {
        mission.holds();
        if self.is_done(mission) {
            return Turn::Finished;
        }
        match self.begin(words) {
            Some(kernel) => {
                self.fly(mission, words, kernel);
                self.outcome(mission)
            }
            None => Turn::NotYet,
        }
    }

    fn is_done(&self, mission: &Mission) -> bool
        ensures { result ≡ is_done (mission_flight mission.now) (proc_of self.now.seat) (seat_place self.now.seat) }
    {
        let frame = self.seat.frame();
        if !self.seat.halted() {
            return frame == mission.script().frames;
        }
        match restart_of(mission.script(), self.seat.proc()) {
            Some(restart) => restart <= frame,
            None => true,
        }
    }

    // Returns the result of a turn in which the processor has flown a frame. It is `Finished` if the processor has
    // flown all frames or has halted for good, and `Worked` otherwise.
    fn outcome(&self, mission: &Mission) -> Turn
        ensures { result ≡ (if is_done (mission_flight mission.now) (proc_of self.now.seat) (seat_place self.now.seat) then Finished else Worked) }
    {
        if self.is_done(mission) {
            Turn::Finished
        } else {
            Turn::Worked
        }
    }

    // Starts the frame for which the processor waits, and returns the kernel image of that frame, or `None` if the
    // frame is not released. A processor that had halted restarts.
    #[tactic(auto, using(crate::proofs::Places::spare_there, crate::proofs::Places::spare_begun, crate::proofs::Units::few))]
    fn begin(&mut self, words: &WordTable) -> Option<KernelImage>
        requires fits { IsCrewOf words.now self.old }
        requires waits { Waits (flight_in words.now) (proc_of self.old.seat) (seat_place self.old.seat) }
        ensures proc { proc_of self.new.seat ≡ proc_of self.old.seat }
        ensures fits { MatchOption result (IsCrewOf words.now self.new) (λ image. CrewFlies words.now 1 self.new) }
        ensures place { MatchOption result (seat_place self.new.seat ≡ seat_place self.old.seat)
            (λ image. seat_place self.new.seat ≡ started_place words.now self.old.seat) }
        ensures tries { MatchOption result (tries_of self.new.seat ≡ tries_of self.old.seat + 1) (λ image. tries_of self.new.seat ≡ tries_of self.old.seat) }
        ensures image { IfSome result (IsAwaitedImage words.now self.old.seat) }
    {
        let image = words.started(&mut self.seat)?;
        self.flyer.start();
        Some(image)
    }

    // Flies the frame that has been started. Makes the looks and the draft, and then the steps up to the halt or up
    // to the end of the frame.
    fn fly(&mut self, mission: &Mission, words: &WordTable, kernel: KernelImage)
        requires mission { mission_in words.now ≡ mission.now }
        requires flies { CrewFlies words.now 1 self.old }
        requires kernel { kernel ≡ kernel_image mission.now.spec mission.now.script (frame_of (seat_place self.old.seat)) }
        ensures fits { IsCrewOf words.now self.new }
        ensures proc { proc_of self.new.seat ≡ proc_of self.old.seat }
        ensures place { seat_place self.new.seat ≡ frame_end words.now self.old.seat }
        ensures tries { tries_of self.new.seat ≡ tries_of self.old.seat }
    {
        mission.holds();
        let procs = mission.spec().procs.items().len() as u8;
        self.snap.kernel = kernel;
        look_at_all(words, procs, &mut self.seat, &mut self.snap.images);
        self.draft(mission);
        self.end(mission, words);
    }

    // Sets the crew's image to the draft of the crew's unit in the frame of the last snapshot. The unit must be up.
    #[tactic(auto, using(crate::proofs::Steps::drafted_by))]
    fn draft(&mut self, mission: &Mission)
        requires lives { is_halted (seat_place self.old.seat) ≡ false }
        requires known { proc_of self.old.seat < length mission.now.spec.procs }
        requires snap { IsSnapshot mission.now.spec mission.now.script (frame_of (seat_place self.old.seat)) self.old.snap }
        ensures image { IsSeatDraft mission.now self.old.seat self.new.image }
        ensures seat { self.new.seat ≡ self.old.seat }
        ensures spare { self.new.flyer.spare ≡ self.old.flyer.spare }
    {
        mission.holds();
        self.flyer
            .draft(mission.spec(), &self.snap, &mut self.image);
    }

    // Ends the frame whose draft the processor has made. The processor commits the frame, or halts if the script has
    // a halt in the frame.
    fn end(&mut self, mission: &Mission, words: &WordTable)
        requires mission { mission_in words.now ≡ mission.now }
        requires flies { CrewFlies words.now (length mission.now.spec.procs + 1) self.old }
        requires image { IsSeatDraft (mission_in words.now) self.old.seat self.old.image }
        ensures fits { IsCrewOf words.now self.new }
        ensures proc { proc_of self.new.seat ≡ proc_of self.old.seat }
        ensures place { seat_place self.new.seat ≡ frame_end words.now self.old.seat }
        ensures tries { tries_of self.new.seat ≡ tries_of self.old.seat }
    {
        mission.holds();
        flights_are_of_traces();
        let width = bank_words::words(mission.spec());
        let frame = self.seat.frame();
        match halt_in(mission.script(), self.seat.proc(), frame) {
            Some(halt) => {
                let step = u32::from(halt.step);
                halt_after(words, &mut self.seat, &self.image, width, step);
                self.flyer.halt(frame);
            }
            None => commit(words, &mut self.seat, &self.image, width),
        }
    }
}
