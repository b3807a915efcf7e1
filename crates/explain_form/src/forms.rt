//! The form `explain`, which prints why a specification or a script is refused, or the idle parts of an accepted
//! specification.

ghost use Rattle.std.specs.Prelude.{◌≡◌, ◌∷◌, [], IfOk, Some};
ghost use Rattle.coverage_check.specs.Acceptance.{first_refusal};
ghost use Rattle.fault_script.specs.Assumption.{first_outside};
ghost use Rattle.fault_script.specs.Fits.{Fits};
ghost use Rattle.document_explanations.specs.Scripts.{AsksExplainedScript};
ghost use Rattle.form_base.specs.Answers.{Gives};
ghost use Rattle.form_base.specs.Endings.{Ends, IsTaken, Prepares, PreparesWithoutFiles};
ghost use Rattle.form_base.specs.declared.status.TheConstants.{ANSWERED, NOT_ACCEPTED, UNASSUMED_SCRIPT};
ghost use Rattle.explain_form.specs.Answers.{ExplainAnswers, ExplainScriptAnswers, HasNoFault, MissionAnswers, GivesExplanation};
ghost use Rattle.explain_form.specs.Texts.{accepted_text, explain_answer, outside_answer, refused_text, script_answer, unassumed_text};

use crate::explanations::{Explanation, make_accepted, make_refused, make_unassumed};
use coverage_check::{AcceptError, Shown, accept};
use document_explanations::scripts::ExplainedScript;
use document_explanations::specifications::ExplainedSpecification;
use fault_script::{Outside, within};
use form_base::loads::load;
use form_base::mission_files::MissionFiles;
use form_base::printing::{print_refusal, print_text};
use form_base::refusals::Refusal;
use form_base::status::{ANSWERED, NOT_ACCEPTED, Status, UNASSUMED_SCRIPT};
use scram_io::{Files, Sink};
use scram_types::{NoMemory, Script, Spec};
use std::alloc::Global;

/// Prints why the specification in the file `specification` is refused. If the specification is accepted, prints its
/// idle parts.
pub fn explain<F: Files, K: Sink>(
    alloc: Global,
    specification: &str,
    files: &mut F,
    out: &mut K,
) -> Status
    ensures { Ends (ExplainAnswers specification.now) (specification.now ∷ [])
        (F.state files.old) (F.state files.new) (IsTaken (K.state out.old) (K.state out.new) result.code) }
{
    match read_specification(alloc, specification, files) {
        Ok(explanation) => print_text(out, explanation.code, &explanation.text),
        Err(refusal) => print_refusal(out, &refusal),
    }
}

/// Prints why the specification or the script in the files that `named` names is refused. If the specification and
/// the script form a mission, prints the idle parts of the specification.
pub fn explain_script<F: Files, K: Sink>(
    alloc: Global,
    named: MissionFiles<'_>,
    files: &mut F,
    out: &mut K,
) -> Status
    ensures { Ends (ExplainScriptAnswers named.entry.specification.now named.entry.script.now)
        (named.entry.specification.now ∷ named.entry.script.now ∷ [])
        (F.state files.old) (F.state files.new) (IsTaken (K.state out.old) (K.state out.new) result.code) }
{
    match read_both(alloc, named, files) {
        Ok(explanation) => print_text(out, explanation.code, &explanation.text),
        Err(refusal) => print_refusal(out, &refusal),
    }
}

/// Reads the specification in the file `specification` and returns its explanation. Returns the refusal if the file
/// cannot be loaded or memory runs out.
fn read_specification<F: Files>(
    alloc: Global,
    specification: &str,
    files: &mut F,
) -> Result<Explanation, Refusal>
    ensures reads { Prepares (ExplainAnswers specification.now) GivesExplanation (specification.now ∷ []) (F.state files.old) (F.state files.new) result }
    ensures told { IfOk result HasNoFault }
{
    match load(alloc, &ExplainedSpecification, specification, files) {
        Ok(spec) => explain_specification(alloc, spec),
        Err(refusal) => Err(refusal),
    }
}

/// Reads the specification and the script in the files that `named` names, and returns their explanation. Returns the
/// refusal of the first file that cannot be loaded, or the out-of-memory refusal if memory runs out.
fn read_both<F: Files>(
    alloc: Global,
    named: MissionFiles<'_>,
    files: &mut F,
) -> Result<Explanation, Refusal>
    ensures reads { Prepares (ExplainScriptAnswers named.entry.specification.now named.entry.script.now) GivesExplanation
        (named.entry.specification.now ∷ named.entry.script.now ∷ []) (F.state files.old) (F.state files.new) result }
    ensures told { IfOk result HasNoFault }
{
    match load(alloc, &ExplainedSpecification, named.specification, files) {
        Ok(spec) => read_script(alloc, spec, named.script, files),
        Err(refusal) => Err(refusal),
    }
}

fn read_script<F: Files>(
    alloc: Global,
    spec: Spec,
    script: &str,
    files: &mut F,
) -> Result<Explanation, Refusal>
    ensures reads { Prepares (AsksExplainedScript spec script.now (MissionAnswers spec)) GivesExplanation
        (script.now ∷ []) (F.state files.old) (F.state files.new) result }
    ensures told { IfOk result HasNoFault }
{
    match load(alloc, &ExplainedScript { spec: &spec }, script, files) {
        Ok(script) => explain_both(alloc, spec, script),
        Err(refusal) => {
            drop(spec);
            Err(refusal)
        }
    }
}

fn explain_specification(alloc: Global, spec: Spec) -> Result<Explanation, Refusal>
    ensures prepares { PreparesWithoutFiles (Gives (explain_answer spec (first_refusal spec))) GivesExplanation result }
    ensures told { IfOk result HasNoFault }
{
    match accept(alloc, spec) {
        Ok(accepted) => {
            let explanation = explain_accepted(alloc, accepted.spec());
            drop(accepted);
            explanation
        }
        Err(AcceptError::NotAccepted(spec, shown)) => explain_refused(alloc, spec, &shown),
        Err(AcceptError::NoMemory(spec)) => {
            drop(spec);
            Err(Refusal::out_of_memory())
        }
    }
}

fn explain_both(alloc: Global, spec: Spec, script: Script) -> Result<Explanation, Refusal>
    requires { Fits spec script }
    ensures prepares { PreparesWithoutFiles (Gives (script_answer spec script (first_refusal spec))) GivesExplanation result }
    ensures told { IfOk result HasNoFault }
{
    match accept(alloc, spec) {
        Ok(accepted) => {
            let explanation = explain_assumed(alloc, accepted.spec(), &script);
            drop((accepted, script));
            explanation
        }
        Err(AcceptError::NotAccepted(spec, shown)) => {
            drop(script);
            explain_refused(alloc, spec, &shown)
        }
        Err(AcceptError::NoMemory(spec)) => {
            drop((spec, script));
            Err(Refusal::out_of_memory())
        }
    }
}

fn explain_refused(alloc: Global, spec: Spec, shown: &Shown) -> Result<Explanation, Refusal>
    ensures prepares { PreparesWithoutFiles (Gives (NOT_ACCEPTED, refused_text spec shown.now)) GivesExplanation result }
    ensures told { IfOk result HasNoFault }
{
    let text = make_refused(alloc, &spec, shown);
    drop(spec);
    match text {
        Ok(text) => Ok(Explanation {
            code: NOT_ACCEPTED,
            text,
        }),
        Err(NoMemory) => Err(Refusal::out_of_memory()),
    }
}

// Returns the explanation of an accepted specification and a script that fits it.
fn explain_assumed(alloc: Global, spec: &Spec, script: &Script) -> Result<Explanation, Refusal>
    requires { Fits spec.now script.now }
    ensures prepares { PreparesWithoutFiles (Gives (outside_answer spec.now script.now (first_outside spec.now script.now))) GivesExplanation result }
    ensures told { IfOk result HasNoFault }
{
    match within(spec, script) {
        Ok(()) => explain_accepted(alloc, spec),
        Err(outside) => explain_outside(alloc, spec, script, &outside),
    }
}

fn explain_accepted(alloc: Global, spec: &Spec) -> Result<Explanation, Refusal>
    ensures prepares { PreparesWithoutFiles (Gives (ANSWERED, accepted_text spec.now)) GivesExplanation result }
    ensures told { IfOk result HasNoFault }
{
    match make_accepted(alloc, spec) {
        Ok(text) => Ok(Explanation {
            code: ANSWERED,
            text,
        }),
        Err(NoMemory) => Err(Refusal::out_of_memory()),
    }
}

fn explain_outside(
    alloc: Global,
    spec: &Spec,
    script: &Script,
    outside: &Outside,
) -> Result<Explanation, Refusal>
    requires { first_outside spec.now script.now ≡ Some outside.now }
    ensures prepares { PreparesWithoutFiles (Gives (UNASSUMED_SCRIPT, unassumed_text spec.now script.now outside.now)) GivesExplanation result }
    ensures told { IfOk result HasNoFault }
{
    match make_unassumed(alloc, spec, script, outside) {
        Ok(text) => Ok(Explanation {
            code: UNASSUMED_SCRIPT,
            text,
        }),
        Err(NoMemory) => Err(Refusal::out_of_memory()),
    }
}
