//! Openers of streams by name.
ghost use Rattle.std.specs.Prelude.{◌≡◌, ◌++◌, ◌∷◌, ◌≤◌, [], ℕ, List, Option, None, Some, IfOk, IfSome, IsErrOf, length};
ghost use Rattle.scram_io.specs.Streams.{NotedLonger};
ghost use Rattle.scram_io.specs.declared.files.ReadFault.TheVariants.{Failed, NoMemory, TooLong};

use super::files::ReadFault;
use super::notes::NotedReads;
use super::streams::read_past;
use std::alloc::Global;
use std::fs::File;
use std::io::Read;
use std::{io, rt};

/// An opener of streams by name. `bytes` is the contents of the stream with a name, or `None` if they are not known.
pub(crate) trait Opens {
    type Stream: Read + Drop;

    ghost bytes: { Self → List ℕ → Option (List ℕ) };

    /// Opens the stream with this name. Returns an error if the stream cannot be opened.
    fn open(&self, name: &str) -> io::Result<Self::Stream>
        ensures { IfOk result (λ stream. IfSome (bytes self.now name.now) (λ all. Self.Stream.remaining stream ≡ Some all)) };
}

/// An opener of the files of a runtime.
#[derive(Drop)]
pub(crate) struct System<'a, R> {
    pub rt: &'a R,
}

impl<'a, R: rt::Files> Opens for System<'a, R> {
    type Stream = R::File;

    ghost bytes = { λ _ _. None };

    fn open(&self, name: &str) -> io::Result<R::File> {
        File::open(self.rt, name)
    }
}

/// Opens the stream with this name, reads it to its end or past `limit` bytes, and notes the name with the bytes
/// read.
///
/// # Errors
///
/// Returns `TooLong` if more than `limit` bytes were read, `NoMemory` if memory runs out, and `Failed` if the stream
/// could not be opened or read.
pub(crate) fn read_noted<O: Opens>(
    opener: &O,
    reads: &mut NotedReads,
    alloc: Global,
    name: &str,
    limit: usize,
) -> Result<Vec<u8>, ReadFault>
    ensures grew { IfOk result (λ bytes. reads.new.reads ≡ reads.old.reads ++ (name.now, bytes.items) ∷ []) }
    ensures limited { IfOk result (λ bytes. length bytes.items ≤ limit) }
    ensures whole { IfOk result (λ bytes. IfSome (O.bytes opener.now name.now) (λ all. bytes.items ≡ all)) }
    ensures failed { IsErrOf result ReadFault.Failed → reads.new.reads ≡ reads.old.reads }
    ensures too_long { IsErrOf result ReadFault.TooLong → NotedLonger reads.old.reads reads.new.reads name.now limit (O.bytes opener.now name.now) }
    ensures no_memory { IsErrOf result ReadFault.NoMemory → reads.new.reads ≡ reads.old.reads }
{
    let mut stream = opener.open(name)?;
    let bytes = read_past(alloc, &mut stream, limit)?;
    reads.note(name.as_bytes(), &bytes);
    if bytes.len() > limit {
        return Err(ReadFault::TooLong);
    }
    Ok(bytes)
}
