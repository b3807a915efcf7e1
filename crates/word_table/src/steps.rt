//! The steps of a processor.

ghost use Rattle.std.specs.Prelude.{◌≡◌, ◌+◌, ◌<◌, MatchOption, Some, length};
ghost use Rattle.scram_types.specs.Lookups.{proc_id};
ghost use Rattle.bank_words.specs.declared.events.Event.TheVariants.{Done, Flip, Halt, Look, Store};
ghost use Rattle.fail_stop.specs.Events.{frame_of, frame_on, halted_there, one_on};
ghost use Rattle.fail_stop.specs.Flights.{word_in};
ghost use Rattle.word_table.specs.Actors.{Waits, frame_awaited};
ghost use Rattle.word_table.specs.Tables.{IsAwaitedImage, IsSeatOf, awaited_by, committed_image, drafted_words, flight_in, mission_in, next_step, proc_of, seat_place, started_place, tries_of};

use crate::actors::{Confirms, Ends, Halts, Looks, Starts, Stores};
use crate::seats::Seat;
use crate::tables::WordTable;
use bank_words::{KernelImage, decode, kernel_decode, mark_word};
use fail_stop::law::kernel_images_come_back;
use fail_stop::words::{bank_index, end_index, mark_index};
use scram_types::{Image, ProcId};

impl WordTable {
    /// Tries to start the frame for which the seat waits, and returns the kernel image of that frame. A processor
    /// that has halted starts the frame of its restart. Returns `None` only if the release word that the call loads
    /// shows that the frame is not yet released. This method does not block.
    pub fn started(&self, seat: &mut Seat) -> Option<KernelImage>
        requires seat { IsSeatOf self.now seat.old }
        requires waits { Waits (flight_in self.now) (proc_of seat.old) (seat_place seat.old) }
        ensures seat { IsSeatOf self.now seat.new }
        ensures proc { proc_of seat.new ≡ proc_of seat.old }
        ensures image { MatchOption result (seat_place seat.new ≡ seat_place seat.old) (IsAwaitedImage self.now seat.old) }
        ensures place { MatchOption result (seat_place seat.new ≡ seat_place seat.old) (λ image. seat_place seat.new ≡ started_place self.now seat.old) }
        ensures tries { MatchOption result (tries_of seat.new ≡ tries_of seat.old + 1) (λ image. tries_of seat.new ≡ tries_of seat.old) }
    {
        let frame = self.frame_awaited(seat);
        let release = self.table.shared.load::<Starts>(&mut seat.inner, 0);
        if release <= u64::from(frame) {
            return None;
        }
        seat.frame = frame;
        seat.step = 1;
        seat.halted = false;
        kernel_images_come_back();
        Some(kernel_decode(&self.read_kernel(&mut seat.inner)))
    }

    /// Returns the frame for whose release the seat waits.
    pub(crate) fn frame_awaited(&self, seat: &Seat) -> u32
        requires { proc_of seat.now < 8 }
        ensures { result ≡ awaited_by self.now seat.now }
    {
        if !seat.halted {
            return seat.frame;
        }
        match self.restarts[usize::from(seat.proc.0)] {
            Some(restart) => restart,
            None => seat.frame,
        }
    }

    /// Fills `image` with the image of processor `q` as of the start of the seat's frame. This method does not block.
    pub fn look(&self, seat: &mut Seat, q: ProcId, image: &mut Image)
        requires seat { IsSeatOf self.now seat.old }
        requires q { q.0 < length (mission_in self.now).spec.procs }
        requires next { next_step self.now seat.old ≡ Some (Look (proc_id (proc_of seat.old)) q) }
        ensures seat { IsSeatOf self.now seat.new }
        ensures proc { proc_of seat.new ≡ proc_of seat.old }
        ensures place { seat_place seat.new ≡ one_on (seat_place seat.old) }
        ensures tries { tries_of seat.new ≡ tries_of seat.old }
        ensures image { image.new ≡ committed_image self.now q.0 (frame_of (seat_place seat.old)) }
    {
        let bank = self.bank_picked(&mut seat.inner, seat.frame, q);
        let at = bank_index(q, bank);
        self.read_image(&mut seat.inner, at, 1, image);
        image[0] = decode(self.table.shared.load::<Looks>(&mut seat.inner, at));
        seat.step += 1;
    }

    /// Stores `word` as word `i` of the frame's draft, in the bank that the processor's mark does not name. This
    /// method does not block.
    // If the word already has that value, a load makes the step. A store would remove the word's cache line from the
    // readers' caches.
    pub fn store(&self, seat: &mut Seat, i: u32, word: u64)
        requires seat { IsSeatOf self.now seat.old }
        requires next { next_step self.now seat.old ≡ Some (Store (proc_id (proc_of seat.old)) i) }
        requires word { word ≡ word_in (drafted_words self.now (proc_of seat.old) (frame_of (seat_place seat.old))) i }
        ensures seat { IsSeatOf self.now seat.new }
        ensures proc { proc_of seat.new ≡ proc_of seat.old }
        ensures place { seat_place seat.new ≡ one_on (seat_place seat.old) }
        ensures tries { tries_of seat.new ≡ tries_of seat.old }
    {
        let bank = self.bank_picked(&mut seat.inner, seat.frame, seat.proc);
        let at = bank_index(seat.proc, 1 - bank) + i as usize;
        if self.table.shared.load::<Confirms>(&mut seat.inner, at) != word {
            self.table.shared.store::<Stores>(&mut seat.inner, at, word);
        }
        seat.step += 1;
    }

    /// Commits the seat's frame by storing the mark, which names the frame and the bank of the draft. This method
    /// does not block.
    pub fn flip(&self, seat: &mut Seat)
        requires seat { IsSeatOf self.now seat.old }
        requires next { next_step self.now seat.old ≡ Some (Flip (proc_id (proc_of seat.old))) }
        ensures seat { IsSeatOf self.now seat.new }
        ensures proc { proc_of seat.new ≡ proc_of seat.old }
        ensures place { seat_place seat.new ≡ one_on (seat_place seat.old) }
        ensures tries { tries_of seat.new ≡ tries_of seat.old }
    {
        let bank = self.bank_picked(&mut seat.inner, seat.frame, seat.proc);
        let mark = mark_word(seat.frame + 1, 1 - bank as u8);
        let at = mark_index(seat.proc);
        self.table.shared.store::<Stores>(&mut seat.inner, at, mark);
        seat.step += 1;
    }

    /// Ends the seat's frame, and wakes the kernel if the kernel sleeps on the end word. This method does not block.
    pub fn done(&self, seat: &mut Seat)
        requires seat { IsSeatOf self.now seat.old }
        requires next { next_step self.now seat.old ≡ Some (Done (proc_id (proc_of seat.old))) }
        ensures seat { IsSeatOf self.now seat.new }
        ensures proc { proc_of seat.new ≡ proc_of seat.old }
        ensures place { seat_place seat.new ≡ frame_on (seat_place seat.old) }
        ensures tries { tries_of seat.new ≡ tries_of seat.old }
    {
        let at = end_index(seat.proc);
        let end = 2 * (u64::from(seat.frame) + 1);
        self.table.shared.store::<Ends>(&mut seat.inner, at, end);
        seat.frame += 1;
        seat.step = 0;
        self.wake_kernel(at);
    }

    /// Halts the seat's processor in its frame, and wakes the kernel if the kernel sleeps on the end word. This
    /// method does not block.
    pub fn halt(&self, seat: &mut Seat)
        requires seat { IsSeatOf self.now seat.old }
        requires next { next_step self.now seat.old ≡ Some (Halt (proc_id (proc_of seat.old))) }
        ensures seat { IsSeatOf self.now seat.new }
        ensures proc { proc_of seat.new ≡ proc_of seat.old }
        ensures place { seat_place seat.new ≡ halted_there (seat_place seat.old) }
        ensures tries { tries_of seat.new ≡ tries_of seat.old }
    {
        let at = end_index(seat.proc);
        let end = 2 * u64::from(seat.frame) + 1;
        self.table.shared.store::<Halts>(&mut seat.inner, at, end);
        seat.step = 0;
        seat.halted = true;
        self.wake_kernel(at);
    }
}
