//! The loading of the files that the command's words name.

ghost use Rattle.std.specs.Prelude.{◌≡◌, ◌≢◌, IfErr, ℕ, List};
ghost use Rattle.scram_io.specs.Outside.{StaysSteady};
ghost use Rattle.form_base.specs.Loads.{Loads, ReadsAs, UnreadIsFault};
ghost use Rattle.form_base.specs.Refusals.{answer_of};
ghost use Rattle.form_base.specs.declared.status.TheConstants.{UNREAD_FILE};

use crate::refusals::Refusal;
use scram_io::{Files, ReadFault};
use std::alloc::Global;

/// A kind of document. Each document has at most a given length, and its bytes encode a value of type `T`.
pub trait Document<T> {
    ghost limit: { Self → ℕ };

    ghost long: { Self → ℕ × List ℕ };

    ghost Says: { Self → T → List ℕ → Type 0 };

    ghost Breaks: { Self → ℕ × List ℕ → List ℕ → Type 0 };

    /// Returns the maximum length of a document, in bytes.
    fn limit(&self) -> usize
        ensures { result ≡ limit self.now };

    /// Returns the value that the bytes encode.
    ///
    /// # Errors
    ///
    /// Returns the refusal for the first rule that the bytes break, or the out-of-memory refusal if memory runs out.
    fn read(&self, alloc: Global, bytes: &[u8]) -> Result<T, Refusal>
        ensures reads { ReadsAs (Says self.now) (Breaks self.now) bytes.now result }
        ensures other { IfErr result (λ refusal. (answer_of refusal).0 ≢ UNREAD_FILE) };

    /// Returns the refusal of a file with more bytes than the limit.
    fn too_long(&self) -> Refusal
        ensures is { answer_of result ≡ long self.now }
        ensures other { (answer_of result).0 ≢ UNREAD_FILE };
}

/// Reads the file `name` and returns the value that the file encodes.
///
/// # Errors
///
/// Returns the refusal of a file that was not read if reading fails. Returns the refusal `document.too_long()` if the
/// file is too long. Returns the refusal of `document.read` if the file breaks a rule. Returns the out-of-memory
/// refusal if memory runs out.
pub fn load<T, D: Document<T>, F: Files>(
    alloc: Global,
    document: &D,
    name: &str,
    files: &mut F,
) -> Result<T, Refusal>
    ensures loads { Loads (D.Says document.now) (D.Breaks document.now) (D.limit document.now) (D.long document.now) name.now
        (F.state files.old) (F.state files.new) result }
    ensures steady { StaysSteady (F.state files.old) (F.state files.new) name.now }
    ensures unread { UnreadIsFault (F.state files.old) (F.state files.new) result }
{
    match files.read(alloc, name, document.limit()) {
        Ok(bytes) => document.read(alloc, &bytes),
        Err(ReadFault::Failed) => Err(Refusal::unread(alloc, name)),
        Err(ReadFault::TooLong) => Err(document.too_long()),
        Err(ReadFault::NoMemory) => Err(Refusal::out_of_memory()),
    }
}
