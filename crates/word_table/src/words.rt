//! The words of a mission, together with the mission.

ghost use Rattle.std.specs.Prelude.{◌≡◌};

use crate::closing::LastWords;
use crate::kernel_steps::Marked;
use crate::seats::{KSeat, Seat};
use crate::tables::WordTable;
use bank_words::KernelImage;
use coverage_check::Mission;
use scram_types::{Image, NoMemory, ProcId};
use std::alloc::Global;
use std::sync::Wait;

/// The shared atomic words of a mission, with the mission. The methods call those of `table`, which threads can
/// share.
#[derive(Drop)]
pub struct Words<'a> {
    pub mission: &'a Mission,
    pub table: WordTable,
    ghost same: { table.table.shared.key ≡ mission.now },
}

impl<'a> Words<'a> {
    ghost use Rattle.std.specs.Prelude.{◌+◌, ◌<◌, IfOk, IfSome, MatchOption, Some, length};
    ghost use Rattle.scram_types.specs.Lookups.{proc_id};
    ghost use Rattle.bank_words.specs.declared.events.Event.TheVariants.{Done, Flip, Halt, Look, Store};
    ghost use Rattle.fail_stop.specs.Events.{frame_of, frame_on, halted_there, one_on};
    ghost use Rattle.fail_stop.specs.Flights.{word_in};
    ghost use Rattle.word_table.specs.Actors.{Waits};
    ghost use Rattle.word_table.specs.Closing.{AreZeroFrom};
    ghost use Rattle.word_table.specs.Tables.{AreImagesOf, AreMarksOf, AreOpening, AreSeatsOf, IsAwaitedImage, IsKernelSeatOf, IsSeatOf, committed_image, committed_mark, drafted_words, flight_in, has_halted_by, kernel_frame, kernel_steps, kernel_tries, kernel_words_of, mission_in, next_step, proc_of, seat_place, started_place, tries_of};
    ghost use Rattle.word_table.specs.declared.seats.Seat as seat_types;

    /// Creates the words of a mission, as they are before the first frame. Returns the words, the kernel's seat, and
    /// the seats of the processors in order. Each actor is at its opening place. Returns an error only if memory runs
    /// out.
    pub fn open(
        alloc: Global,
        mission: &'a Mission,
    ) -> Result<(Words<'a>, KSeat, Vec<Seat>), NoMemory>
        ensures mission { IfOk result (λ t. mission_in t.0.table ≡ mission.now) }
        ensures kernel { IfOk result (λ t. IsKernelSeatOf t.0.table t.1) }
        ensures kernel_place { IfOk result (λ t. (kernel_frame t.1 ≡ 0) × (kernel_steps t.1 ≡ 0)) }
        ensures seats { IfOk result (λ t. AreSeatsOf t.0.table t.2.items) }
        ensures opening { IfOk result (λ t. AreOpening t.2.items) }
    {
        let (table, kseat, seats) = WordTable::open(alloc, mission)?;
        Ok((Words { mission, table }, kseat, seats))
    }

    /// Returns the mission of these words.
    pub fn mission(&self) -> &Mission
        ensures { result.now ≡ mission_in self.now.table }
    {
        self.mission
    }

    /// Tries to start the frame for which the seat waits, and returns the kernel image of that frame. A processor
    /// that has halted starts the frame of its restart. Returns `None` only if the release word that the call loads
    /// shows that the frame is not yet released. This method does not block.
    pub fn started(&self, seat: &mut Seat) -> Option<KernelImage>
        requires seat { IsSeatOf self.now.table seat.old }
        requires waits { Waits (flight_in self.now.table) (proc_of seat.old) (seat_place seat.old) }
        ensures seat { IsSeatOf self.now.table seat.new }
        ensures proc { proc_of seat.new ≡ proc_of seat.old }
        ensures image { MatchOption result (seat_place seat.new ≡ seat_place seat.old) (IsAwaitedImage self.now.table seat.old) }
        ensures place { MatchOption result (seat_place seat.new ≡ seat_place seat.old) (λ image. seat_place seat.new ≡ started_place self.now.table seat.old) }
        ensures tries { MatchOption result (tries_of seat.new ≡ tries_of seat.old + 1) (λ image. tries_of seat.new ≡ tries_of seat.old) }
    {
        self.table.started(seat)
    }

    /// Fills `image` with the image of processor `q` as of the start of the seat's frame. This method does not block.
    pub fn look(&self, seat: &mut Seat, q: ProcId, image: &mut Image)
        requires seat { IsSeatOf self.now.table seat.old }
        requires q { q.0 < length (mission_in self.now.table).spec.procs }
        requires next { next_step self.now.table seat.old ≡ Some (Look (proc_id (proc_of seat.old)) q) }
        ensures seat { IsSeatOf self.now.table seat.new }
        ensures proc { proc_of seat.new ≡ proc_of seat.old }
        ensures place { seat_place seat.new ≡ one_on (seat_place seat.old) }
        ensures tries { tries_of seat.new ≡ tries_of seat.old }
        ensures image { image.new ≡ committed_image self.now.table q.0 (frame_of (seat_place seat.old)) }
    {
        self.table.look(seat, q, image);
    }

    /// Stores `word` as word `i` of the frame's draft, in the bank that the processor's mark does not name. This
    /// method does not block.
    pub fn store(&self, seat: &mut Seat, i: u32, word: u64)
        requires seat { IsSeatOf self.now.table seat.old }
        requires next { next_step self.now.table seat.old ≡ Some (Store (proc_id (proc_of seat.old)) i) }
        requires word { word ≡ word_in (drafted_words self.now.table (proc_of seat.old) (frame_of (seat_place seat.old))) i }
        ensures seat { IsSeatOf self.now.table seat.new }
        ensures proc { proc_of seat.new ≡ proc_of seat.old }
        ensures place { seat_place seat.new ≡ one_on (seat_place seat.old) }
        ensures tries { tries_of seat.new ≡ tries_of seat.old }
    {
        self.table.store(seat, i, word);
    }

    /// Commits the seat's frame by storing the mark, which names the frame and the bank of the draft. This method
    /// does not block.
    pub fn flip(&self, seat: &mut Seat)
        requires seat { IsSeatOf self.now.table seat.old }
        requires next { next_step self.now.table seat.old ≡ Some (Flip (proc_id (proc_of seat.old))) }
        ensures seat { IsSeatOf self.now.table seat.new }
        ensures proc { proc_of seat.new ≡ proc_of seat.old }
        ensures place { seat_place seat.new ≡ one_on (seat_place seat.old) }
        ensures tries { tries_of seat.new ≡ tries_of seat.old }
    {
        self.table.flip(seat);
    }

    /// Ends the seat's frame, and wakes the kernel if the kernel sleeps on the end word. This method does not block.
    pub fn done(&self, seat: &mut Seat)
        requires seat { IsSeatOf self.now.table seat.old }
        requires next { next_step self.now.table seat.old ≡ Some (Done (proc_id (proc_of seat.old))) }
        ensures seat { IsSeatOf self.now.table seat.new }
        ensures proc { proc_of seat.new ≡ proc_of seat.old }
        ensures place { seat_place seat.new ≡ frame_on (seat_place seat.old) }
        ensures tries { tries_of seat.new ≡ tries_of seat.old }
    {
        self.table.done(seat);
    }

    /// Halts the seat's processor in its frame, and wakes the kernel if the kernel sleeps on the end word. This
    /// method does not block.
    pub fn halt(&self, seat: &mut Seat)
        requires seat { IsSeatOf self.now.table seat.old }
        requires next { next_step self.now.table seat.old ≡ Some (Halt (proc_id (proc_of seat.old))) }
        ensures seat { IsSeatOf self.now.table seat.new }
        ensures proc { proc_of seat.new ≡ proc_of seat.old }
        ensures place { seat_place seat.new ≡ halted_there (seat_place seat.old) }
        ensures tries { tries_of seat.new ≡ tries_of seat.old }
    {
        self.table.halt(seat);
    }

    /// Tries to note that processor `p` is done with the kernel's frame or has halted. Returns what the processor has
    /// committed by the end of that frame, and sets `image` to the image that the mark names. Returns `None` only if
    /// the end word that this call loads does not allow the note. In that case `image` is unchanged. This method does
    /// not block.
    pub fn gone(&self, kseat: &mut KSeat, p: ProcId, image: &mut Image) -> Option<Marked>
        requires seat { IsKernelSeatOf self.now.table kseat.old }
        requires frame { kernel_frame kseat.old < (mission_in self.now.table).script.frames }
        requires p { p.0 < length (mission_in self.now.table).spec.procs }
        requires next { kernel_steps kseat.old ≡ p.0 }
        ensures seat { IsKernelSeatOf self.now.table kseat.new }
        ensures frame { kernel_frame kseat.new ≡ kernel_frame kseat.old }
        ensures steps { MatchOption result (kernel_steps kseat.new ≡ kernel_steps kseat.old) (λ marked. kernel_steps kseat.new ≡ kernel_steps kseat.old + 1) }
        ensures tries { MatchOption result (kernel_tries kseat.new ≡ kernel_tries kseat.old + 1) (λ marked. kernel_tries kseat.new ≡ kernel_tries kseat.old) }
        ensures halted { IfSome result (λ marked. marked.halted ≡ has_halted_by (flight_in self.now.table) p.0 (kernel_frame kseat.old)) }
        ensures mark { IfSome result (λ marked. marked.mark ≡ committed_mark self.now.table p.0 (kernel_frame kseat.old + 1)) }
        ensures image { MatchOption result (image.new ≡ image.old) (λ marked. image.new ≡ committed_image self.now.table p.0 (kernel_frame kseat.old + 1)) }
    {
        self.table.gone(kseat, p, image)
    }

    /// Stores word `i` of the kernel image of the next frame. This method does not block.
    pub fn publish(&self, kseat: &mut KSeat, i: u32, word: u64)
        requires seat { IsKernelSeatOf self.now.table kseat.old }
        requires i { i < 20 }
        requires next { kernel_steps kseat.old ≡ length (mission_in self.now.table).spec.procs + i }
        requires frame { kernel_frame kseat.old + 1 < (mission_in self.now.table).script.frames }
        requires word { word ≡ word_in (kernel_words_of self.now.table (kernel_frame kseat.old + 1)) i }
        ensures seat { IsKernelSeatOf self.now.table kseat.new }
        ensures frame { kernel_frame kseat.new ≡ kernel_frame kseat.old }
        ensures steps { kernel_steps kseat.new ≡ kernel_steps kseat.old + 1 }
        ensures tries { kernel_tries kseat.new ≡ kernel_tries kseat.old }
    {
        self.table.publish(kseat, i, word);
    }

    /// Releases the next frame, and wakes the processors that sleep on the release word. This method does not block.
    pub fn release(&self, kseat: &mut KSeat)
        requires seat { IsKernelSeatOf self.now.table kseat.old }
        requires next { kernel_steps kseat.old ≡ length (mission_in self.now.table).spec.procs + 20 }
        requires frame { kernel_frame kseat.old + 1 < (mission_in self.now.table).script.frames }
        ensures seat { IsKernelSeatOf self.now.table kseat.new }
        ensures frame { kernel_frame kseat.new ≡ kernel_frame kseat.old + 1 }
        ensures steps { kernel_steps kseat.new ≡ 0 }
        ensures tries { kernel_tries kseat.new ≡ kernel_tries kseat.old }
    {
        self.table.release(kseat);
    }

    /// Spins and then parks until the frame for which the seat waits is released. May also return spuriously.
    pub fn rest<R: Wait>(&self, rt: &R, seat: &Seat)
        requires { IsSeatOf self.now.table seat.now }
    {
        self.table.rest(rt, seat);
    }

    /// Spins and then parks until the kernel may note its next processor. Returns at once if the kernel has noted all
    /// processors. May also return spuriously.
    pub fn rest_kernel<R: Wait>(&self, rt: &R, kseat: &KSeat) {
        self.table.rest_kernel(rt, kseat);
    }

    /// Closes the table and takes back all its seats. Returns for each processor the mark and the image that the
    /// processor has committed up to the place of its seat. The entries after the last processor are zero. This
    /// method does not block.
    pub fn close(self, kseat: KSeat, seats: Vec<Seat>) -> LastWords
        requires kernel { IsKernelSeatOf self.table kseat }
        requires seats { AreSeatsOf self.table seats.items }
        ensures marks { AreMarksOf self.entry.table seats.items result.marks }
        ensures images { AreImagesOf self.entry.table seats.items result.images }
        ensures past { AreZeroFrom (length (mission_in self.entry.table).spec.procs) result.marks result.images }
    {
        self.table.close(kseat, seats)
    }
}
