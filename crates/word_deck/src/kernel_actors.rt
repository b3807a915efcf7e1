//! The kernel as a type parameter of the functions that start threads. These functions cannot name a kernel's type
//! with a lifetime, since nothing is known about the result of a closure that holds a value of such a type.

ghost use Rattle.std.specs.Prelude.{◌≡◌};
ghost use Rattle.word_table.specs.Tables.{mission_in};
ghost use Rattle.word_deck.specs.declared.turns.Turn.TheVariants.{Finished};

use crate::kernels::KernelCrew;
use crate::turns::Turn;
use std::sync::Wait;
use word_table::WordTable;

/// The kernel of a mission, at its seat.
pub(crate) trait KernelActor: Drop {
    ghost use Rattle.std.specs.Prelude.{ℕ};
    ghost use Rattle.coverage_check.specs.Missions.{MissionParts};
    ghost use Rattle.word_table.specs.declared.tables.WordTable.{WordTable};

    ghost mission_of: { Self → MissionParts };

    ghost seated: { WordTable → Self → Type 0 };

    ghost done: { WordTable → Self → Type 0 };

    // The ghost name of a reference that the kernel holds. It lets the lender of the reference know that the kernel
    // still holds that reference.
    ghost lent: { Self → ℕ };

    /// Makes a turn of the kernel, and returns its result.
    fn work(&mut self, words: &WordTable) -> Turn
        requires mission { mission_in words.now ≡ mission_of self.old }
        requires seated { seated words.now self.old }
        ensures mission { mission_of self.new ≡ mission_of self.old }
        ensures seated { seated words.now self.new }
        ensures done { result ≡ Finished → done words.now self.new }
        ensures lent { lent self.new ≡ lent self.old };

    /// Spins and then parks until the kernel may note its next processor. May also return spuriously.
    fn rest<R: Wait>(&self, rt: &R, words: &WordTable);
}

impl<'a> KernelActor for KernelCrew<'a> {
    ghost use Rattle.word_table.specs.Tables.{IsKernelSeatOf};
    ghost use Rattle.word_deck.specs.Kernels.{IsKernelDone};

    ghost mission_of = { λ kernel. kernel.mission.now };

    ghost seated = { λ words kernel. IsKernelSeatOf words kernel.kseat };

    ghost done = { λ words kernel. IsKernelDone (mission_in words) kernel.kseat };

    ghost lent = { λ kernel. 0 };

    fn work(&mut self, words: &WordTable) -> Turn {
        self.turn(words)
    }

    fn rest<R: Wait>(&self, rt: &R, words: &WordTable) {
        words.rest_kernel(rt, &self.kseat);
    }
}
