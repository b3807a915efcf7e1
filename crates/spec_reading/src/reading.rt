//! How specifications are read.

ghost use Rattle.std.specs.Prelude.{IfErr, IfOk, OnOk};
ghost use Rattle.serde_json.specs.View.{view};
ghost use Rattle.scram_types.specs.Specification.{HasLength};
ghost use Rattle.scram_doc.specs.Faults.{Answers};
ghost use Rattle.scram_doc.specs.Lists.{AllAfter};
ghost use Rattle.spec_reading.specs.Facts.{IsNewProc};
ghost use Rattle.spec_reading.specs.Kept.{AreApps};
ghost use Rattle.spec_reading.specs.Documents.{names_in, names_with, spec_in, spec_of, unranked_in, unranked_names_in, unranked_of};
ghost use Rattle.spec_reading.specs.Writable.{IsWritable};
ghost use Rattle.spec_reading.specs.Answers.{AnswersSpec, ShowsCycle, HasNoCycle};
ghost use Rattle.spec_reading.specs.Found.{AreMembers};

use crate::configurations::read_confs;
use crate::documents::{check_version, read_rest};
use crate::factors::read_factors;
use crate::fault::SpecError;
use crate::members::{Members, find_members};
use crate::names::ByName;
use crate::needs::read_apps;
use crate::numbered::Numbered;
use crate::processors::read_procs;
use crate::rule;
use crate::vocabulary::Vocabulary;
use scram_doc::{DocError, DocFault, Path, parse};
use scram_types::limits::MAX_SPECIFICATION_BYTES;
use scram_types::{AppSpec, Proc, Spec};
use serde_json::Value;
use std::alloc::Global;

/// Reads the configurations and factors of a document, given its processors and applications.
fn read_more_names(
    alloc: Global,
    procs: Numbered<Proc, ByName>,
    apps: Numbered<AppSpec, ByName>,
    members: &Members<'_>,
) -> Result<Vocabulary, DocError>
    requires members { AreMembers members.now }
    requires procs_count { HasLength 1 8 procs }
    requires procs_fit { AllAfter IsNewProc procs }
    requires apps_fit { AreApps apps }
    ensures { Answers (names_with procs apps (view members.now.document.now)) (λ n. n) result }
{
    let confs = read_confs(alloc, &procs, &apps, members)?;
    let factors = read_factors(alloc, members)?;
    Ok(Vocabulary {
        procs,
        apps,
        confs,
        factors,
    })
}

fn read_names(alloc: Global, members: &Members<'_>) -> Result<Vocabulary, SpecError>
    requires members { AreMembers members.now }
    ensures value { AnswersSpec (names_in (view members.now.document.now)) result }
    ensures cycle { IfErr result (λ error. ShowsCycle (unranked_names_in (view members.now.document.now)) error) }
    ensures no_cycle { OnOk result (HasNoCycle (unranked_names_in (view members.now.document.now))) }
{
    check_version(members.scram, &Path::root().member("scram"))?;
    let procs = read_procs(alloc, members)?;
    let apps = read_apps(alloc, members)?;
    let vocabulary = read_more_names(alloc, procs, apps, members)?;
    Ok(vocabulary)
}

fn read_document(alloc: Global, document: &Value) -> Result<Spec, SpecError>
    ensures value { AnswersSpec (spec_in (view document.now)) result }
    ensures cycle { IfErr result (λ error. ShowsCycle (unranked_in (view document.now)) error) }
    ensures writable { IfOk result IsWritable }
{
    let members = find_members(document)?;
    let vocabulary = read_names(alloc, &members)?;
    let spec = read_rest(alloc, vocabulary, &members)?;
    Ok(spec)
}

/// Returns the specification that the bytes encode. A specification that is read can be written again.
///
/// # Errors
///
/// Returns an error with the first rule that the bytes break and its path, and `NoMemory` if memory runs out. A fault
/// contains a cycle of needs if and only if the applications are read and their needs have a cycle.
pub fn read_spec(alloc: Global, bytes: &[u8]) -> Result<Spec, SpecError>
    ensures value { AnswersSpec (spec_of bytes.now) result }
    ensures cycle { IfErr result (λ error. ShowsCycle (unranked_of bytes.now) error) }
    ensures writable { IfOk result IsWritable }
{
    if bytes.len() > MAX_SPECIFICATION_BYTES {
        return Err(SpecError::from(DocFault::new(rule::TOO_LONG, &Path::root())));
    }
    let document = parse(alloc, bytes)?;
    read_document(alloc, &document)
}
