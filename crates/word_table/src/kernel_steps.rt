//! The steps of the kernel.

ghost use Rattle.std.specs.Prelude.{◌≡◌, ◌+◌, ◌<◌, IfSome, MatchOption, length};
ghost use Rattle.fail_stop.specs.Events.{may_note};
ghost use Rattle.fail_stop.specs.Flights.{word_in};
ghost use Rattle.word_table.specs.Tables.{IsKernelSeatOf, committed_image, committed_mark, flight_in, has_halted_by, kernel_frame, kernel_steps, kernel_tries, kernel_words_of, mission_in};

use crate::actors::{Confirms, Notes, Publishes, Releases};
use crate::seats::KSeat;
use crate::tables::WordTable;
use fail_stop::notes::may_note;
use fail_stop::words::{bank_index, end_index, kernel_index, mark_index};
use scram_types::{Image, ProcId};

/// The mark that a processor has committed by the end of a frame, and whether the processor has halted.
#[derive(Clone, Copy)]
pub struct Marked {
    pub halted: bool,
    pub mark: u64,
}

impl WordTable {
    /// Tries to note that processor `p` is done with the kernel's frame or has halted. Returns what the processor has
    /// committed by the end of that frame, and sets `image` to the image that the mark names. Returns `None` only if
    /// the end word that this call loads does not allow the note. In that case `image` is unchanged. This method does
    /// not block.
    pub fn gone(&self, kseat: &mut KSeat, p: ProcId, image: &mut Image) -> Option<Marked>
        requires seat { IsKernelSeatOf self.now kseat.old }
        requires frame { kernel_frame kseat.old < (mission_in self.now).script.frames }
        requires p { p.0 < length (mission_in self.now).spec.procs }
        requires next { kernel_steps kseat.old ≡ p.0 }
        ensures seat { IsKernelSeatOf self.now kseat.new }
        ensures frame { kernel_frame kseat.new ≡ kernel_frame kseat.old }
        ensures steps { MatchOption result (kernel_steps kseat.new ≡ kernel_steps kseat.old) (λ marked. kernel_steps kseat.new ≡ kernel_steps kseat.old + 1) }
        ensures tries { MatchOption result (kernel_tries kseat.new ≡ kernel_tries kseat.old + 1) (λ marked. kernel_tries kseat.new ≡ kernel_tries kseat.old) }
        ensures halted { IfSome result (λ marked. marked.halted ≡ has_halted_by (flight_in self.now) p.0 (kernel_frame kseat.old)) }
        ensures mark { IfSome result (λ marked. marked.mark ≡ committed_mark self.now p.0 (kernel_frame kseat.old + 1)) }
        ensures image { MatchOption result (image.new ≡ image.old) (λ marked. image.new ≡ committed_image self.now p.0 (kernel_frame kseat.old + 1)) }
    {
        let end = self
            .table
            .shared
            .load::<Notes>(&mut kseat.inner, end_index(p));
        if !self.may_note(p, kseat.frame, end) {
            return None;
        }
        kseat.step += 1;
        let mark = self.load(&mut kseat.inner, mark_index(p));
        let bank = (mark % 2) as usize;
        self.read_image(&mut kseat.inner, bank_index(p, bank), 0, image);
        Some(Marked {
            halted: end % 2 == 1,
            mark,
        })
    }

    /// Returns `true` if the kernel may note processor `p` in frame `frame`, given the processor's end word `end`.
    pub(crate) fn may_note(&self, p: ProcId, frame: u32, end: u64) -> bool
        requires { p.0 < 8 }
        ensures { result ≡ may_note (flight_in self.now) p.0 frame end }
    {
        may_note(self.restarts[usize::from(p.0)], frame, end)
    }

    /// Stores word `i` of the kernel image of the next frame. This method does not block.
    pub fn publish(&self, kseat: &mut KSeat, i: u32, word: u64)
        requires seat { IsKernelSeatOf self.now kseat.old }
        requires i { i < 20 }
        requires next { kernel_steps kseat.old ≡ length (mission_in self.now).spec.procs + i }
        requires frame { kernel_frame kseat.old + 1 < (mission_in self.now).script.frames }
        requires word { word ≡ word_in (kernel_words_of self.now (kernel_frame kseat.old + 1)) i }
        ensures seat { IsKernelSeatOf self.now kseat.new }
        ensures frame { kernel_frame kseat.new ≡ kernel_frame kseat.old }
        ensures steps { kernel_steps kseat.new ≡ kernel_steps kseat.old + 1 }
        ensures tries { kernel_tries kseat.new ≡ kernel_tries kseat.old }
    {
        let at = kernel_index(i as usize);
        // If the word already has that value, a load makes the step, as in `store`.
        if self.table.shared.load::<Confirms>(&mut kseat.inner, at) != word {
            self.table
                .shared
                .store::<Publishes>(&mut kseat.inner, at, word);
        }
        kseat.step += 1;
    }

    /// Releases the next frame, and wakes the processors that sleep on the release word. This method does not block.
    pub fn release(&self, kseat: &mut KSeat)
        requires seat { IsKernelSeatOf self.now kseat.old }
        requires next { kernel_steps kseat.old ≡ length (mission_in self.now).spec.procs + 20 }
        requires frame { kernel_frame kseat.old + 1 < (mission_in self.now).script.frames }
        ensures seat { IsKernelSeatOf self.now kseat.new }
        ensures frame { kernel_frame kseat.new ≡ kernel_frame kseat.old + 1 }
        ensures steps { kernel_steps kseat.new ≡ 0 }
        ensures tries { kernel_tries kseat.new ≡ kernel_tries kseat.old }
    {
        let release = u64::from(kseat.frame) + 2;
        self.table
            .shared
            .store::<Releases>(&mut kseat.inner, 0, release);
        kseat.frame += 1;
        kseat.step = 0;
        self.wake_processors();
    }
}
