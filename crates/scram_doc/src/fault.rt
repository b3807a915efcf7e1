ghost use Rattle.std.specs.Prelude.{◌≡◌};
ghost use Rattle.scram_doc.specs.declared.fault.DocError.TheVariants.{Fault, NoMemory};

use crate::Path;
use std::alloc::{AllocError, AllocFailed};

/// A broken rule of a document, with the path of the value where it is broken.
#[derive(Debug, Drop)]
pub struct DocFault {
    pub rule: u8,
    pub path: Path,
}

impl DocFault {
    /// Creates a fault from the number of a rule and the path where the rule is broken.
    pub fn new(rule: u8, at: &Path) -> DocFault
        ensures { result ≡ record { rule = rule; path = at.now } }
    {
        DocFault {
            rule,
            path: at.copy(),
        }
    }
}

/// The reason why a document was not read.
#[derive(Debug, Drop)]
pub enum DocError {
    /// The document breaks a rule.
    Fault(DocFault),

    /// Memory ran out.
    NoMemory,
}

impl From<DocFault> for DocError {
    ghost from_gives = { λ fault error. error ≡ Fault fault };

    fn from(fault: DocFault) -> DocError {
        DocError::Fault(fault)
    }
}

impl From<AllocError> for DocError {
    ghost from_gives = { λ _ error. error ≡ NoMemory };

    fn from(_error: AllocError) -> DocError {
        DocError::NoMemory
    }
}

impl<T: Drop> From<AllocFailed<T>> for DocError {
    ghost from_gives = { λ _ error. error ≡ NoMemory };

    fn from(_error: AllocFailed<T>) -> DocError {
        DocError::NoMemory
    }
}
