//! The form `faults`, which prints the family of fault scripts of a specification: the scripts with a given number of
//! faults that keep to the failure assumption of the specification.

ghost use Rattle.std.specs.Prelude.{◌≡◌, ◌+◌, ◌*◌, ◌≤◌, ◌∷◌, [], length};
ghost use Rattle.coverage_check.specs.Acceptance.{first_refusal};
ghost use Rattle.scram_io.specs.Outside.{Prints};
ghost use Rattle.form_base.specs.Answers.{Gives};
ghost use Rattle.form_base.specs.Endings.{Ends, IsTaken, Prepares, PreparesWithoutFiles};
ghost use Rattle.fault_family.specs.NextFaults.{kinds_of};
ghost use Rattle.fault_family.specs.Scripts.{last_fault_frame};
ghost use Rattle.fault_family.specs.declared.scripts.TheConstants.{LAST_FAULT_FRAME};
ghost use Rattle.faults_form.specs.Answers.{FaultsAnswers, GivesFamily, faults_answer};
ghost use Rattle.faults_form.specs.Counts.{number};
ghost use Rattle.faults_form.specs.Families.{extended_text, family_text, within_text};

use crate::counts::FaultCount;
use crate::lines::make_script_line;
use coverage_check::Accepted;
use fault_family::candidates::{Kinds, candidate, candidate_count, may_follow};
use fault_family::faults::{Fault, FaultKind, Faults};
use fault_family::scripts::FaultScript;
use fault_family::within::is_within;
use form_base::acceptance::accept_specification;
use form_base::loads::load;
use form_base::printing::{print_refusal, status_after};
use form_base::refusals::Refusal;
use form_base::specifications::Specification;
use form_base::status::{ANSWERED, Status};
use scram_io::{Files, Sink, SinkFault};
use scram_types::Spec;
use std::alloc::Global;

/// The words of `faults`: the name of a specification's file, and the number of faults in each script.
#[derive(Clone, Copy)]
pub struct FaultsQuestion<'a> {
    pub specification: &'a str,
    pub count: FaultCount,
}

/// An accepted specification, and the number of faults in each script of its family.
#[derive(Drop)]
struct Family {
    spec: Accepted,
    count: FaultCount,
}

/// Reads the specification in a file and prints its family of fault scripts, one line for each script. Prints a
/// refusal instead if the specification cannot be read or is not accepted. All memory is allocated before the first
/// line is printed.
pub fn faults<F: Files, K: Sink>(
    alloc: Global,
    question: FaultsQuestion<'_>,
    files: &mut F,
    out: &mut K,
) -> Status
    ensures { Ends (FaultsAnswers question.entry.specification.now question.entry.count) (question.entry.specification.now ∷ [])
        (F.state files.old) (F.state files.new) (IsTaken (K.state out.old) (K.state out.new) result.code) }
{
    match read_family(alloc, question, files) {
        Ok(family) => {
            let put = put_family(out, family.spec.spec(), family.count);
            drop(family);
            status_after(put, ANSWERED)
        }
        Err(refusal) => print_refusal(out, &refusal),
    }
}

/// Reads the specification and returns its family. Returns the refusal if the specification cannot be read or is not
/// accepted.
fn read_family<F: Files>(
    alloc: Global,
    question: FaultsQuestion<'_>,
    files: &mut F,
) -> Result<Family, Refusal>
    ensures { Prepares (FaultsAnswers question.entry.specification.now question.entry.count) GivesFamily
        (question.entry.specification.now ∷ []) (F.state files.old) (F.state files.new) result }
{
    match load(alloc, &Specification, question.specification, files) {
        Ok(spec) => find_family(alloc, spec, question.count),
        Err(refusal) => Err(refusal),
    }
}

fn find_family(alloc: Global, spec: Spec, count: FaultCount) -> Result<Family, Refusal>
    ensures { PreparesWithoutFiles (Gives (faults_answer spec count (first_refusal spec))) GivesFamily result }
{
    match accept_specification(alloc, spec) {
        Ok(spec) => Ok(Family { spec, count }),
        Err(refusal) => Err(refusal),
    }
}

fn put_family<K: Sink>(out: &mut K, spec: &Spec, count: FaultCount) -> Result<(), SinkFault>
    ensures { Prints result (K.state out.old) (K.state out.new) (family_text spec.now (number count)) }
{
    let kinds = Kinds::of(spec);
    put_extended(out, spec, kinds.as_slice(), &Faults::new(), count.number())
}

// Writes the lines of the scripts that begin with the faults `before` and have `more` further faults.
fn put_extended<K: Sink>(
    out: &mut K,
    spec: &Spec,
    kinds: &[FaultKind],
    before: &Faults,
    more: u8,
) -> Result<(), SinkFault>
    requires kinds { kinds.now ≡ kinds_of spec.now }
    requires width { length kinds.now ≤ 48 }
    requires few { length before.now + more ≤ 3 }
    requires frame { last_fault_frame before.now ≤ 1001 * length before.now }
    ensures { Prints result (K.state out.old) (K.state out.new) (extended_text spec.now more before.now) }
{
    let faults = before.as_slice();
    if more == 0 {
        return put_within(out, spec, faults);
    }
    for k in 0..candidate_count(spec, kinds, faults) {
        let next = candidate(spec, kinds, faults, k);
        if may_follow(spec, faults, &next) {
            match put_extended(out, spec, kinds, &before.with(&next), more - 1) {
                Ok(()) => {}
                Err(fault) => return Err(fault),
            }
        }
    }
    Ok(())
}

// Writes the line of the script with the given faults, unless the script violates the failure assumption.
fn put_within<K: Sink>(out: &mut K, spec: &Spec, faults: &[Fault]) -> Result<(), SinkFault>
    requires few { length faults.now ≤ 3 }
    requires frame { last_fault_frame faults.now ≤ LAST_FAULT_FRAME }
    ensures { Prints result (K.state out.old) (K.state out.new) (within_text spec.now faults.now) }
{
    let script = FaultScript::new(spec, faults);
    if is_within(spec, &script) {
        out.put(make_script_line(spec, &script).as_bytes())
    } else {
        Ok(())
    }
}
