//! The closing of a table, and the words that it leaves.

ghost use Rattle.std.specs.Prelude.{◌≡◌, ◌+◌, ◌≤◌, ◌<◌, ◌∷◌, [], length, map, slice_index, slice_index_or, ℕ};
ghost use Rattle.std.specs.Mem.Slots.{IsFull, slots_items, slots_len};
ghost use Rattle.fail_stop.specs.Listed.{word_index_count};
ghost use Rattle.word_table.specs.Closing.{AreLast, AreZeroFrom, IsStoredImage};
ghost use Rattle.word_table.specs.Tables.{AreImagesOf, AreMarksOf, AreSeatsOf, IsKernelSeatOf, actor_of, kernel_frame, kernel_steps, mission_in};
ghost use Rattle.word_table.specs.declared.actors.Actor.TheVariants.{Kernel};
ghost use Rattle.word_table.specs.declared.seats.Seat as seat_types;

use crate::actors::{Deals, View};
use crate::seats::{KSeat, Seat};
use crate::tables::WordTable;
use atomic_table::Closed;
use bank_words::decode;
use fail_stop::words::{bank_index, mark_index};
use scram_types::{Image, ProcId};
use std::alloc::Global;

/// The last stored marks of the processors, and the images that the marks name. The entries after the last processor
/// are zero.
#[derive(Clone, Copy)]
pub struct LastWords {
    pub images: [Image; 8],
    pub marks: [u64; 8],
}

impl WordTable {
    /// Closes the table and takes back all its seats. Returns for each processor the mark and the image that the
    /// processor has committed up to the place of its seat. The entries after the last processor are zero. This
    /// method does not block.
    pub fn close(self, kseat: KSeat, seats: Vec<Seat>) -> LastWords
        requires kernel { IsKernelSeatOf self kseat }
        requires seats { AreSeatsOf self seats.items }
        ensures marks { AreMarksOf self seats.items result.marks }
        ensures images { AreImagesOf self seats.items result.images }
        ensures past { AreZeroFrom (length (mission_in self).spec.procs) result.marks result.images }
    {
        let all = self.gather(kseat, seats);
        let procs = self.procs as usize;
        let width = self.width as usize;
        let WordTable {
            table,
            frames: _,
            procs: _,
            width: _,
            restarts: _,
            spins: _,
            sleepers: _,
        } = self;
        let closed = table.close_with(all);
        let last = last_words(&closed, procs, width);
        closed.free();
        last
    }

    // Joins all seats, and returns the one seat that has all actors.
    fn gather(&self, kseat: KSeat, seats: Vec<Seat>) -> atomic_table::Seat<(), View>
        requires kernel { IsKernelSeatOf self.now kseat }
        requires seats { AreSeatsOf self.now seats.items }
        ensures table { result.table_id ≡ self.now.table.shared.table_id }
        ensures actors { result.me.0.actors ≡ Kernel (kernel_frame kseat) (kernel_steps kseat) ∷ map actor_of seats.items }
    {
        let KSeat {
            frame: _,
            step: _,
            inner: mut all,
        } = kseat;
        for seat in seats {
            let Seat {
                proc: _,
                frame: _,
                step: _,
                halted: _,
                inner,
            } = seat;
            self.table.shared.join_seat::<Deals>(&mut all, inner);
        }
        all
    }
}

// Returns the marks that the words of a closed table hold, and the images that the marks name.
fn last_words(closed: &Closed<(), Global>, procs: usize, width: usize) -> LastWords
    requires full { IsFull closed.now.words }
    requires places { slots_len closed.now.words ≡ word_index_count }
    requires procs { procs ≤ 8 }
    requires width { width ≤ 64 }
    ensures last { (p : ℕ) → p < procs → AreLast (slots_items closed.now.words) width p (slice_index result.marks p) (slice_index_or result.images p []) }
    ensures past { AreZeroFrom procs result.marks result.images }
{
    let mut marks = [0; 8];
    let mut images = [[0; 64]; 8];
    for p in 0..procs {
        let proc = ProcId(p as u8);
        let mark = closed.word(mark_index(proc));
        marks[p] = mark;
        images[p] = stored_image(closed, bank_index(proc, (mark % 2) as usize), width);
    }
    LastWords { images, marks }
}

// Returns the image whose first `width` words are stored from place `at` on. The other words of the image are zero.
fn stored_image(closed: &Closed<(), Global>, at: usize, width: usize) -> Image
    requires full { IsFull closed.now.words }
    requires places { slots_len closed.now.words ≡ word_index_count }
    requires at { at + 64 ≤ word_index_count }
    requires width { width ≤ 64 }
    ensures { IsStoredImage (slots_items closed.now.words) width at result }
{
    let mut image = [0; 64];
    for i in 0..width {
        image[i] = decode(closed.word(at + i));
    }
    image
}
