//! The opening state of a pair.

ghost use Rattle.std.specs.Prelude.{◌≡◌, ◌<◌, ℕ, IfOk, length, slice_index_or};
ghost use Rattle.scram_types.specs.Specification.{IsSpec};
ghost use Rattle.fail_stop.specs.Events.{At, BankWord};
ghost use Rattle.fail_stop.specs.Listed.{stored_in, word_index_count};
ghost use Rattle.fail_stop.specs.ScriptFlights.{flight_of, kernel_words};
ghost use Rattle.kernel_pair.specs.Cores.{places_in};
ghost use Rattle.kernel_pair.specs.Openings.{IsProcessorOpened, IsUnitOpened};
ghost use Rattle.kernel_pair.specs.Pairs.{IsPairOpening};
ghost use Rattle.kernel_pair.specs.States.{blank_processor, blank_unit, pair_of};

use crate::processors::{ProcessorState, Stand};
use crate::states::PairState;
use crate::units::UnitState;
use fail_stop::openings::opening_words;
use fail_stop::words::bank_index;
use frame_model::Sys;
use scram_types::{NoMemory, ProcId, Script, Spec};
use std::alloc::Global;

/// Returns the state before the first event. The kernel words of both units are `first`. The banks are read from a
/// list of all words, which is freed before the function returns.
///
/// # Errors
///
/// Returns an error if memory runs out.
pub(crate) fn opening_state(
    alloc: Global,
    spec: &Spec,
    script: &Script,
    first: &[u64; 20],
) -> Result<PairState, NoMemory>
    requires facts { IsSpec spec.now }
    requires first { first.now ≡ kernel_words spec.now script.now 0 }
    ensures opening { IfOk result (λ state. IsPairOpening (flight_of spec.now script.now) (pair_of state)) }
    ensures places { IfOk result (λ state. (p : ℕ) → p < 8 → places_in (pair_of state) p ≡ At 0 0) }
{
    let words = opening_words(alloc, script.frames, first, &Sys::start(spec))?;
    Ok(PairState {
        procs: processors_opened(&words),
        units: units_opened(script.frames, first),
    })
}

fn processors_opened(words: &[u64]) -> [ProcessorState; 8]
    requires { length words.now ≡ word_index_count }
    ensures { (p : ℕ) → p < 8 → IsProcessorOpened words.now p (slice_index_or result p blank_processor) }
{
    [
        processor_opened(words, 0),
        processor_opened(words, 1),
        processor_opened(words, 2),
        processor_opened(words, 3),
        processor_opened(words, 4),
        processor_opened(words, 5),
        processor_opened(words, 6),
        processor_opened(words, 7),
    ]
}

fn processor_opened(words: &[u64], p: u8) -> ProcessorState
    requires words { length words.now ≡ word_index_count }
    requires p { p < 8 }
    ensures { IsProcessorOpened words.now p result }
{
    ProcessorState {
        stand: Stand::Before(0),
        mark: 0,
        end: 0,
        banks: [bank_opened(words, p, 0), bank_opened(words, p, 1)],
    }
}

fn bank_opened(words: &[u64], p: u8, b: usize) -> [u64; 64]
    requires words { length words.now ≡ word_index_count }
    requires p { p < 8 }
    requires b { b < 2 }
    ensures { (i : ℕ) → i < 64 → slice_index_or result i 0 ≡ stored_in words.now (BankWord p b i) }
{
    let at = bank_index(ProcId(p), b);
    let mut bank = [0; 64];
    for i in 0..64 {
        bank[i] = words[at + i];
    }
    bank
}

fn units_opened(frames: u32, first: &[u64; 20]) -> [UnitState; 2]
    ensures { (u : ℕ) → u < 2 → IsUnitOpened frames first.now (slice_index_or result u blank_unit) }
{
    let unit = UnitState {
        frame: 0,
        step: 0,
        stopped: None,
        release: u64::from(frames > 0),
        ready: 0,
        words: *first,
        marks: [0; 8],
        images: [[0; 64]; 8],
    };
    [unit, unit]
}
