//! The errors of reading a specification.

ghost use Rattle.std.specs.Prelude.{◌≡◌};
ghost use Rattle.spec_reading.specs.Answers.{plain_fault, plain_error};

use arrayvec::ArrayVec;
use scram_doc::{DocError, DocFault, Path};
use scram_types::{AppId, Name};

/// The first rule that a document breaks, with the path of the value that breaks it. `cycle` is a cycle of needs, or
/// is empty if there is none. `names` contains the names of the applications in `cycle`, in order.
#[derive(Drop)]
pub struct SpecFault {
    pub rule: u8,
    pub path: Path,
    pub cycle: ArrayVec<AppId, 8>,
    pub names: ArrayVec<Name, 8>,
}

/// The reason why a specification was not read.
#[derive(Drop)]
pub enum SpecError {
    /// The document breaks a rule.
    Fault(SpecFault),

    /// Memory ran out.
    NoMemory,
}

/// Converts a broken rule to an error without a cycle.
impl From<DocFault> for SpecError {
    ghost from_gives = { λ fault error. error ≡ plain_fault fault };

    fn from(fault: DocFault) -> SpecError {
        SpecError::Fault(SpecFault {
            rule: fault.rule,
            path: fault.path,
            cycle: ArrayVec::new(),
            names: ArrayVec::new(),
        })
    }
}

/// Converts the error of a part of the document to an error without a cycle.
impl From<DocError> for SpecError {
    ghost from_gives = { λ why error. error ≡ plain_error why };

    fn from(why: DocError) -> SpecError {
        match why {
            DocError::Fault(fault) => SpecError::from(fault),
            DocError::NoMemory => SpecError::NoMemory,
        }
    }
}
