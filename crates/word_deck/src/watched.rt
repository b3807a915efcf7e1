//! The kernel of a flight together with a watch, to which the kernel hands its rows.

ghost use Rattle.std.specs.Prelude.{◌≡◌, ◌≤◌, ◌+◌, length};
ghost use Rattle.scram_kernel.specs.Kernels.{rows_below};

use crate::kernel_actors::KernelActor;
use crate::kernels::KernelCrew;
use crate::turns::Turn;
use coverage_check::Mission;
use scram_types::Row;
use std::sync::Wait;
use telemetry_tap::Watch;
use word_table::WordTable;

/// The kernel of a mission, and the watch to which the kernel hands each row that it writes.
#[derive(Drop)]
pub(crate) struct WatchedKernel<'a, 'w, W: Watch> {
    pub(crate) kernel: KernelCrew<'a>,
    pub(crate) watch: &'w mut W,
}

impl<'a, 'w, W: Watch> KernelActor for WatchedKernel<'a, 'w, W> {
    ghost use Rattle.std.specs.Prelude.{length, ◌≡◌};
    ghost use Rattle.word_table.specs.Tables.{IsKernelSeatOf, mission_in};
    ghost use Rattle.word_deck.specs.Kernels.{IsKernelDone, frames_noted};

    ghost mission_of = { λ crew. crew.kernel.mission.now };

    ghost seated = { λ words crew. IsKernelSeatOf words crew.kernel.kseat × (W.watched crew.watch.now ≡ crew.kernel.mission.now)
        × (W.taken crew.watch.now ≡ frames_noted (length crew.kernel.mission.now.spec.procs) crew.kernel.kseat) };

    ghost done = { λ words crew. IsKernelDone (mission_in words) crew.kernel.kseat
        × (W.taken crew.watch.now ≡ (mission_in words).script.frames) };

    ghost lent = { λ crew. crew.watch.ghost_name };

    fn work(&mut self, words: &WordTable) -> Turn {
        let before = self.kernel.rows().len();
        let turn = self.kernel.turn(words);
        hand_row(self.kernel.mission, self.kernel.rows(), before, self.watch);
        turn
    }

    fn rest<R: Wait>(&self, rt: &R, words: &WordTable) {
        self.kernel.rest(rt, words);
    }
}

// Hands the last row of `rows` to `watch`, which has taken `before` rows. Does nothing if `rows` has only `before`
// rows.
#[tactic(auto, using(crate::proofs::Watching::next_row))]
fn hand_row<W: Watch>(mission: &Mission, rows: &[Row], before: usize, watch: &mut W)
    requires watched { W.watched watch.old ≡ mission.now }
    requires taken { W.taken watch.old ≡ before }
    requires rows { rows.now ≡ rows_below mission.now.spec mission.now.script (length rows.now) }
    requires most { length rows.now ≤ mission.now.script.frames }
    requires low { before ≤ length rows.now }
    requires high { length rows.now ≤ before + 1 }
    ensures watched { W.watched watch.new ≡ mission.now }
    ensures taken { W.taken watch.new ≡ length rows.now }
{
    if before < rows.len() {
        watch.row(&rows[before]);
    }
}
