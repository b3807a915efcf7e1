//! Files that are read by name.
ghost use Rattle.std.specs.Prelude.{◌≡◌, ◌≢◌, ◌∷◌, ◌<◌, ◌≤◌, [], IsTrue, IfOk, IsErrOf, length};
ghost use Rattle.scram_io.specs.declared.files.ReadFault.TheVariants.{Failed, NoMemory, TooLong};
ghost use Rattle.std.specs.IoError.{error_kind};
ghost use Rattle.std.specs.declared.io.ErrorKind.TheVariants.{OutOfMemory};
ghost use Rattle.scram_io.specs.Outside.{FilesState, FoundLonger, Grew, Rose, StaysSteady, greatest_count};

use std::alloc::{AllocError, Global};
use std::io;
use std::io::ErrorKind;
use thiserror::Error;

/// The reason why a file was not read. Out of memory is a separate reason and is never merged with another reason.
#[derive(Clone, Copy, Debug, PartialEq, Eq, Error)]
pub enum ReadFault {
    /// The file could not be read. The count of faults rose.
    #[error("the file could not be read")]
    Failed,
    /// The file has more bytes than the limit.
    #[error("the file is longer than the limit")]
    TooLong,
    /// Memory ran out. This can occur wherever the read would otherwise return the bytes.
    #[error("out of memory")]
    NoMemory,
}

impl From<io::Error> for ReadFault {
    ghost from_gives = { λ error fault. (error_kind error ≡ OutOfMemory → fault ≡ NoMemory) × (error_kind error ≢ OutOfMemory → fault ≡ Failed) };

    fn from(error: io::Error) -> ReadFault {
        match error.kind() {
            ErrorKind::OutOfMemory => ReadFault::NoMemory,
            _ => ReadFault::Failed,
        }
    }
}

impl From<AllocError> for ReadFault {
    ghost from_gives = { λ _ fault. fault ≡ NoMemory };

    fn from(_error: AllocError) -> ReadFault {
        ReadFault::NoMemory
    }
}

/// Files that are read by name, each as a whole. Contracts see their `state`: the history of reads, the map from
/// names to bytes if it is known beforehand, whether the files are steady, and the count of faults. The count never
/// falls, and does not rise past `u64::MAX`. Reads of steady files do not fail if the map has the name.
pub trait Files {
    ghost state: { Self → FilesState };

    /// Returns the bytes of the file `name`, which has at most `limit` bytes. The history grows by this read if the
    /// result is `Ok` or `TooLong`.
    ///
    /// # Errors
    ///
    /// Returns `Failed` if the file could not be read, and `NoMemory` if memory runs out. Returns `TooLong` if the
    /// read did not fail, memory sufficed, and the file has more than `limit` bytes. Then more than `limit` bytes
    /// were read, and the count of faults rises if the map is not known.
    fn read(&mut self, alloc: Global, name: &str, limit: usize) -> Result<Vec<u8>, ReadFault>
        ensures grew { IfOk result (λ bytes. Grew (state self.old) (state self.new) ((name.now, bytes.items) ∷ [])) }
        ensures limited { IfOk result (λ bytes. length bytes.items ≤ limit) }
        ensures failed { IsErrOf result ReadFault.Failed → Grew (state self.old) (state self.new) [] × Rose (state self.old).faults (state self.new).faults }
        ensures too_long { IsErrOf result ReadFault.TooLong → FoundLonger (state self.old) (state self.new) name.now limit }
        ensures no_memory { IsErrOf result ReadFault.NoMemory → Grew (state self.old) (state self.new) [] }
        ensures steady { StaysSteady (state self.old) (state self.new) name.now };

    ghost steady_below: { (files : Self) → IsTrue (state files).steady → (state files).faults < greatest_count };
}
