//! The indices of the shared words in one list, for at most 8 processors and 64 words per bank.

ghost use Rattle.std.specs.Prelude.{◌≡◌, ◌<◌, ◌≤◌};
ghost use Rattle.fail_stop.specs.Events.{BankWord, EndWord, KernelWord, MarkWord};
ghost use Rattle.fail_stop.specs.Listed.{index_of};

use scram_types::ProcId;

/// The number of entries in the list of shared words.
pub const WORDS: usize = 1_120;

/// Returns the index of word `i` of the kernel's twenty words.
pub fn kernel_index(i: usize) -> usize
    requires { i < 20 }
    ensures { result ≡ index_of (KernelWord i) }
{
    8 + i
}

/// Returns the index of the mark of processor `p`.
pub fn mark_index(p: ProcId) -> usize
    ensures { result ≡ index_of (MarkWord p.0) }
{
    32 + 136 * usize::from(p.0)
}

/// Returns the index of the end word of processor `p`.
pub fn end_index(p: ProcId) -> usize
    ensures { result ≡ index_of (EndWord p.0) }
{
    33 + 136 * usize::from(p.0)
}

/// Returns the index of the first word of bank `bank`, 0 or 1, of processor `p`. The other words of the bank follow
/// it.
pub fn bank_index(p: ProcId, bank: usize) -> usize
    requires { bank ≤ 1 }
    ensures { result ≡ index_of (BankWord p.0 bank 0) }
{
    40 + 136 * usize::from(p.0) + 64 * bank
}
