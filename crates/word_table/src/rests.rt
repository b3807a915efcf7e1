//! Waits for a word that another actor stores. A wait spins, and then parks. A wait may end before the word has
//! changed, and has no postcondition.
//!
//! A wake is a system call. Therefore a writer wakes threads only if one sleeps. A sleeper raises its count in
//! `Sleepers` before it loads its word for the last time. The writer of the word loads the count after the store. All
//! these steps are sequentially consistent. Therefore the sleeper's last load finds the stored word, or the writer
//! finds the count raised and wakes the sleeper. A sleeper parks only while the word has the value that the sleeper
//! loaded.

ghost use Rattle.std.specs.Prelude.{◌<◌};
ghost use Rattle.fail_stop.specs.Listed.{word_index_count};
ghost use Rattle.word_table.specs.Tables.{IsSeatOf};

use crate::seats::{KSeat, Seat};
use crate::tables::WordTable;
use fail_stop::words::end_index;
use scram_types::ProcId;
use std::sync::Wait;
use std::sync::atomic::{AtomicU64, Ordering};

/// The numbers of threads that sleep, or are about to sleep, on the words of a table. The kernel and the processors
/// are counted separately.
#[derive(Drop)]
pub(crate) struct Sleepers {
    kernel: AtomicU64,
    processors: AtomicU64,
}

impl Sleepers {
    /// Returns the counts for a table on which no thread sleeps.
    pub(crate) fn new() -> Sleepers {
        Sleepers {
            kernel: AtomicU64::new(0),
            processors: AtomicU64::new(0),
        }
    }
}

impl WordTable {
    /// Wakes the kernel if the kernel sleeps on the word at place `at`. The caller has stored the word.
    pub(crate) fn wake_kernel(&self, at: usize)
        requires { at < word_index_count }
    {
        if self.sleepers.kernel.load(Ordering::SeqCst) != 0 {
            self.table.shared.wake_one(at);
        }
    }

    /// Wakes the processors that sleep on the release word. The caller has stored that word.
    pub(crate) fn wake_processors(&self) {
        if self.sleepers.processors.load(Ordering::SeqCst) != 0 {
            self.table.shared.wake_all(0);
        }
    }

    /// Spins and then parks until the frame for which the seat waits is released. May also return spuriously.
    pub fn rest<R: Wait>(&self, rt: &R, seat: &Seat)
        requires { IsSeatOf self.now seat.now }
    {
        let frame = u64::from(self.frame_awaited(seat));
        for _ in 0..self.spins {
            if self.table.shared.peek(0) > frame {
                return;
            }
        }
        self.sleepers.processors.fetch_add(1, Ordering::SeqCst);
        let release = self.table.shared.peek(0);
        if release <= frame {
            self.table
                .shared
                .park(rt, 0, (release & 0xffff_ffff) as u32);
        }
        self.sleepers.processors.fetch_sub(1, Ordering::SeqCst);
    }

    /// Spins and then parks until the kernel may note its next processor. Returns at once if the kernel has noted all
    /// processors. May also return spuriously.
    pub fn rest_kernel<R: Wait>(&self, rt: &R, kseat: &KSeat) {
        if kseat.step >= self.procs {
            return;
        }
        let p = ProcId(kseat.step as u8);
        let at = end_index(p);
        for _ in 0..self.spins {
            if self.may_note(p, kseat.frame, self.table.shared.peek(at)) {
                return;
            }
        }
        self.sleepers.kernel.fetch_add(1, Ordering::SeqCst);
        let end = self.table.shared.peek(at);
        if !self.may_note(p, kseat.frame, end) {
            self.table.shared.park(rt, at, (end & 0xffff_ffff) as u32);
        }
        self.sleepers.kernel.fetch_sub(1, Ordering::SeqCst);
    }
}
