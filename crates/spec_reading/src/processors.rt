//! How processors are read.

ghost use Rattle.std.specs.Prelude.{◌≤◌, codes, length, IfOk};
ghost use Rattle.serde_json.specs.View.{view};
ghost use Rattle.scram_doc.specs.Faults.{Answers};
ghost use Rattle.spec_reading.specs.Processors.{read_proc, read_procs};
ghost use Rattle.spec_reading.specs.Members.{member_in};
ghost use Rattle.scram_doc.specs.Lists.{AllAfter};
ghost use Rattle.spec_reading.specs.Facts.{IsNewProc};
ghost use Rattle.spec_reading.specs.Found.{AreMembers};

use crate::members::Members;
use crate::names::{ByName, read_new_name};
use crate::numbered::{NamedElements, Numbered, read_named_list};
use scram_doc::{DocError, Lengths, Path, exactly_two, whole_in};
use scram_types::Proc;
use scram_types::limits::{MAX_LOAD, MAX_PROCESSORS};
use serde_json::Value;
use std::alloc::Global;

struct Procs;

impl NamedElements<Proc, ByName> for Procs {
    ghost room = { 40 };

    ghost reading = { λ _. read_proc };

    ghost Fits = { λ _. IsNewProc };

    ghost is_new = { λ e done x fits. fits.name.new };

    fn read(
        &self,
        _alloc: Global,
        done: &Numbered<Proc, ByName>,
        v: &Value,
        at: &Path,
    ) -> Result<Proc, DocError> {
        let (name, capacity) = exactly_two(v, ("name", "capacity"), at)?;
        let name = read_new_name(done, name, &at.member("name"))?;
        let capacity = whole_in(capacity, 0, MAX_LOAD + 1, &at.member("capacity"))?;
        Ok(Proc { name, capacity })
    }
}

/// Reads the 1 to 8 processors of a document.
///
/// # Errors
///
/// Returns an error with the first broken rule and its path, and `NoMemory` if memory runs out.
pub fn read_procs(alloc: Global, members: &Members<'_>) -> Result<Numbered<Proc, ByName>, DocError>
    requires members { AreMembers members.now }
    ensures value { Answers (member_in (codes "processors") read_procs (view members.now.document.now)) (λ l. l) result }
    ensures least { IfOk result (λ l. 1 ≤ length l) }
    ensures few { IfOk result (λ l. length l ≤ 8) }
    ensures fits { IfOk result (λ l. AllAfter IsNewProc l) }
{
    let at = Path::root().member("processors");
    read_named_list(
        alloc,
        &Procs,
        members.procs,
        Lengths {
            least: 1,
            most: MAX_PROCESSORS,
        },
        &at,
    )
}
