//! A processor between its frames, and the effect of a frame on it.

ghost use Rattle.std.specs.Prelude.{◌≡◌, ℕ, suc, ◌<◌, ◌≤◌, ◌+◌, ◌-◌, ◌*◌, ◌%◌, ◌^◌, length, option_map, if◌then◌else◌, nat_eq, nat_lt, slice_index_or, ◌&&◌};
ghost use Rattle.scram_types.specs.declared.scripts.HaltAt.{HaltAt};
ghost use Rattle.fail_stop.specs.Events.{after_frame};
ghost use Rattle.fail_stop.specs.Flights.{reaches_mark, word_in};
ghost use Rattle.fail_stop.specs.ScriptFlights.{draft_words};
ghost use Rattle.kernel_pair.specs.Pairs.{frame_made};
ghost use Rattle.kernel_pair.specs.States.{bank_word, flight_by, processor_of, stand_place};
ghost use Rattle.kernel_pair.specs.declared.setups.Setup.{Setup};

use crate::setups::Setup;
use bank_words::words;
use fail_stop::halts::{end_word_after, reaches_mark, stores_by};
use fault_script::halt_in;
use scram_types::{HaltAt, ProcId};

/// The state of a processor between two of its frames. The processor is at the beginning of a frame (`Before`) or has
/// halted in a frame (`Halted`).
#[derive(Clone, Copy)]
pub enum Stand {
    Before(u32),
    Halted(u32),
}

/// A processor: its state between two frames, its mark, its end word and its two banks.
#[derive(Clone, Copy)]
pub struct ProcessorState {
    pub stand: Stand,
    pub mark: u64,
    pub end: u64,
    pub banks: [[u64; 64]; 2],
}

impl ProcessorState {
    /// Makes frame `frame` of processor `p` with the words of `draft`. If the processor has a halt in the frame, the
    /// frame ends with the halt.
    #[tactic(auto, using(crate::proofs::Flying::made_as))]
    pub(crate) fn fly(&mut self, setup: &Setup, p: ProcId, frame: u32, draft: &[u64; 64])
        requires narrow { 8 * length setup.now.spec.now.apps ≤ 64 }
        requires frame { frame + 1 < 2 ^ 32 }
        requires draft { (i : ℕ) → slice_index_or draft.now i 0 ≡ word_in (draft_words setup.now.spec.now setup.now.script.now p.0 frame) i }
        ensures { processor_of self.new ≡ frame_made (flight_by setup.now) p.0 frame (processor_of self.old) }
    {
        let halt = halt_in(setup.script, p, frame);
        let width = words(setup.spec);
        copy_prefix_to_bank(
            &mut self.banks,
            (1 - self.mark % 2) as usize,
            draft,
            stores_by(width, halt),
        );
        self.mark = mark_made(width, frame, halt, self.mark);
        self.end = end_word_after(frame, halt);
        self.stand = after_frame(frame, halt);
    }
}

fn after_frame(frame: u32, halt: Option<HaltAt>) -> Stand
    requires { frame + 1 < 2 ^ 32 }
    ensures { stand_place result ≡ after_frame frame (option_map (λ (halt : HaltAt). halt.step) halt) }
{
    match halt {
        Some(_) => Stand::Halted(frame),
        None => Stand::Before(frame + 1),
    }
}

fn mark_made(width: u32, frame: u32, halt: Option<HaltAt>, mark: u64) -> u64
    ensures { result ≡ (if reaches_mark width (option_map (λ (halt : HaltAt). halt.step) halt) then 2 * suc frame + (1 - mark % 2) else mark) }
{
    if reaches_mark(width, halt) {
        2 * (u64::from(frame) + 1) + (1 - mark % 2)
    } else {
        mark
    }
}

// Copies the first `count` words of a draft to bank `side`.
#[tactic(auto, using(crate::proofs::Flying::laid_on))]
fn copy_prefix_to_bank(banks: &mut [[u64; 64]; 2], side: usize, draft: &[u64; 64], count: u32)
    requires count { count ≤ 64 }
    requires side { side < 2 }
    ensures { (b i : ℕ) → bank_word banks.new b i ≡ (if nat_eq b side && nat_lt i count then slice_index_or draft.now i 0 else bank_word banks.old b i) }
{
    copy_prefix(&mut banks[side], draft, count);
}

// Copies the first `count` words of a draft to a bank.
fn copy_prefix(bank: &mut [u64; 64], draft: &[u64; 64], count: u32)
    requires { count ≤ 64 }
    ensures { (i : ℕ) → slice_index_or bank.new i 0 ≡ (if nat_lt i count then slice_index_or draft.now i 0 else slice_index_or bank.old i 0) }
{
    for i in 0..count as usize {
        bank[i] = draft[i];
    }
}
