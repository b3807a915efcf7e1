//! The words at the opening of a flight.

ghost use Rattle.std.specs.Prelude.{◌≡◌, ◌<◌, IfOk};
ghost use Rattle.fault_script.specs.Fits.{Fits};
ghost use Rattle.frame_model.specs.Flights.{is_proc};
ghost use Rattle.frame_model.specs.Storage.{kernel_image};
ghost use Rattle.fail_stop.specs.Openings.{opening_at, opening_list, proc_opening, start_word};

use crate::drafts::is_proc;
use crate::words::WORDS;
use bank_words::{KernelImage, encode};
use fault_script::Walk;
use frame_model::{Sys, decide};
use scram_types::{NoMemory, Script, Spec};
use std::alloc::Global;

/// Returns the kernel image of the first frame.
pub fn first_image(spec: &Spec, script: &Script) -> KernelImage
    requires { Fits spec.now script.now }
    ensures { result ≡ kernel_image spec.now script.now 0 }
{
    let sys = Sys::start(spec);
    let env = Walk::first(spec, script).env;
    let keepers = sys.keepers;
    KernelImage {
        frame: 0,
        mode: decide(spec, &sys, &env),
        env,
        keepers,
        world: sys.world,
    }
}

/// Returns the shared words at the opening of a flight with `frames` frames. The kernel's words are `first`. Bank 0
/// of each processor contains the processor's start image, taken from `sys`. The release word, which is the number of
/// frames that have been released, is 1, or 0 if the flight has no frame. All other words are 0. Returns an error only
/// if memory runs out.
#[tactic(auto, using(crate::proofs::OpeningLists::list_whole))]
pub fn opening_words(
    alloc: Global,
    frames: u32,
    first: &[u64; 20],
    sys: &Sys,
) -> Result<Vec<u64>, NoMemory>
    ensures { IfOk result (λ words. words.items ≡ opening_list frames first.now sys.now.areas sys.now.keepers) }
{
    let mut words = Vec::with_capacity(alloc, WORDS)?;
    for n in 0..WORDS {
        words.push(opening_at(frames, first, sys, n))?;
    }
    Ok(words)
}

fn opening_at(frames: u32, first: &[u64; 20], sys: &Sys, n: usize) -> u64
    requires { n < 1120 }
    ensures { result ≡ opening_at frames first.now sys.now.areas sys.now.keepers n }
{
    if n == 0 {
        u64::from(frames > 0)
    } else if n < 8 {
        0
    } else if n < 28 {
        first[n - 8]
    } else if n < 32 {
        0
    } else {
        proc_opening(sys, (n - 32) / 136, (n - 32) % 136)
    }
}

fn proc_opening(sys: &Sys, p: usize, r: usize) -> u64
    ensures { result ≡ proc_opening sys.now.areas sys.now.keepers p r }
{
    if r < 8 {
        0
    } else if r < 72 {
        start_word(sys, p, r - 8)
    } else {
        0
    }
}

// Returns word `i` of the start image of processor `p`, or 0 if `p` is not the keeper of the word's application.
fn start_word(sys: &Sys, p: usize, i: usize) -> u64
    requires { i < 64 }
    ensures { result ≡ start_word sys.now.areas sys.now.keepers p i }
{
    if is_proc(p, sys.keepers[i / 8]) {
        encode(sys.areas[i / 8][i % 8])
    } else {
        0
    }
}
