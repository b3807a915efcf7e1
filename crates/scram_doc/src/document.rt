ghost use Rattle.serde_json.specs.View.{view};
ghost use Rattle.scram_doc.specs.Documents.{parsed};
ghost use Rattle.scram_doc.specs.Faults.{Answers};

use crate::{DocError, DocFault, Path, rule};
use serde_json::Value;
use std::alloc::Global;

/// Returns the JSON value that the bytes encode.
///
/// # Errors
///
/// Returns a fault of rule 1 at the root if the bytes are not a JSON text, and `NoMemory` if memory runs out.
pub fn parse(alloc: Global, bytes: &[u8]) -> Result<Value, DocError>
    ensures { Answers (parsed bytes.now) view result }
{
    match Value::from_slice(alloc, bytes) {
        Ok(value) => Ok(value),
        Err(error) if error.is_memory() => Err(DocError::NoMemory),
        Err(_) => Err(DocError::Fault(DocFault::new(rule::NO_JSON_TEXT, &Path::root()))),
    }
}
