//! The form `choices`. For each configuration, the form shows the rules that choose a target from the configuration.
//! For each of these rules, it shows the number of environments in which the rule is the first that fits.

ghost use Rattle.std.specs.Prelude.{◌<◌, ◌∷◌, [], IfOk};
ghost use Rattle.cube_cover.specs.Shares.{AreShares, IsShare, is_ruled_by};
ghost use Rattle.coverage_check.specs.Form.{state_refusal};
ghost use Rattle.scram_io.specs.Outside.{Prints};
ghost use Rattle.form_base.specs.Answers.{Gives};
ghost use Rattle.form_base.specs.Endings.{Ends, IsTaken, Prepares, PreparesWithoutFiles};
ghost use Rattle.form_base.specs.declared.status.TheConstants.{ANSWERED};
ghost use Rattle.spec_forms.specs.choice_forms.Answers.{ChoicesAnswers, choices_answer};
ghost use Rattle.spec_forms.specs.choice_forms.Tables.{HasShares, ShowsShares, GivesChoices, choice_text, choices_text, choices_text_from};

use crate::choice_forms::lines::make_choice_line;
use coverage_check::refuse_states;
use cube_cover::{Share, shares_of};
use form_base::lines::make_shown_line;
use form_base::loads::load;
use form_base::printing::{print_refusal, status_after};
use form_base::refusals::{Refusal, Refused};
use form_base::specifications::Specification;
use form_base::status::{ANSWERED, Status};
use scram_io::{Files, Sink, SinkFault};
use scram_types::{ConfId, List, NoMemory, Spec};
use std::alloc::Global;

/// A specification, with the shares of each configuration.
struct Table {
    spec: Spec,
    shares: Vec<List<Share>>,
}

// A derived drop is laid out in the proof of each function that drops the value, and this one is a call.
impl Drop for Table {
    fn drop(self) {
        let Table { spec: _, shares: _ } = self;
    }
}

/// Prints what the specification in a file chooses from each configuration. There is a line for each rule that is the
/// first that fits in some environment in scope. If no rule fits in some environments in scope, there is a further
/// line for those environments. Each line has the number of its environments and the first of them. If too many
/// environments are in scope, the refusal is printed instead.
pub fn choices<F: Files, K: Sink>(
    alloc: Global,
    specification: &str,
    files: &mut F,
    out: &mut K,
) -> Status
    ensures { Ends (ChoicesAnswers specification.now) (specification.now ∷ []) (F.state files.old) (F.state files.new)
        (IsTaken (K.state out.old) (K.state out.new) result.code) }
{
    match read_table(alloc, specification, files) {
        Ok(table) => {
            let status = status_after(put_choices(out, &table.spec, &table.shares), ANSWERED);
            drop(table);
            status
        }
        Err(refusal) => print_refusal(out, &refusal),
    }
}

/// Reads the specification and returns it with the shares of its configurations, or returns the refusal.
fn read_table<F: Files>(alloc: Global, specification: &str, files: &mut F) -> Result<Table, Refusal>
    ensures reads { Prepares (ChoicesAnswers specification.now) GivesChoices (specification.now ∷ []) (F.state files.old) (F.state files.new) result }
    ensures shares { IfOk result ShowsShares }
{
    match load(alloc, &Specification, specification, files) {
        Ok(spec) => find_table(alloc, spec),
        Err(refusal) => Err(refusal),
    }
}

fn find_table(alloc: Global, spec: Spec) -> Result<Table, Refusal>
    ensures prepares { PreparesWithoutFiles (Gives (choices_answer spec (state_refusal spec))) GivesChoices result }
    ensures shares { IfOk result ShowsShares }
{
    if let Some(shown) = refuse_states(&spec) {
        let line = make_shown_line(&spec, &shown);
        drop(spec);
        return Err(Refusal::new(Refused::Acceptance, line));
    }
    match find_shares(alloc, &spec) {
        Ok(shares) => Ok(Table { spec, shares }),
        Err(NoMemory) => {
            drop(spec);
            Err(Refusal::out_of_memory())
        }
    }
}

/// Returns the shares of each configuration, in the order of the configurations.
///
/// # Errors
///
/// Returns an error if memory runs out.
pub fn find_shares(alloc: Global, spec: &Spec) -> Result<Vec<List<Share>>, NoMemory>
    ensures { IfOk result (λ shares. HasShares spec.now shares.items) }
{
    let mut shares = Vec::new(alloc);
    for i in 0..spec.count_confs() {
        shares.push(List::of(shares_of(alloc, spec, ConfId(i))?))?;
    }
    Ok(shares)
}

fn put_choices<K: Sink>(out: &mut K, spec: &Spec, shares: &[List<Share>]) -> Result<(), SinkFault>
    requires { HasShares spec.now shares.now }
    ensures { Prints result (K.state out.old) (K.state out.new) (choices_text spec.now) }
{
    for i in 0..spec.count_confs() {
        match put_choices_from(out, spec, ConfId(i), shares[usize::from(i)].items()) {
            Ok(()) => {}
            Err(fault) => return Err(fault),
        }
    }
    Ok(())
}

fn put_choices_from<K: Sink>(
    out: &mut K,
    spec: &Spec,
    from: ConfId,
    shares: &[Share],
) -> Result<(), SinkFault>
    requires { AreShares spec.now from shares.now }
    ensures { Prints result (K.state out.old) (K.state out.new) (choices_text_from spec.now from.0) }
{
    for k in 0..shares.len() {
        match put_choice(out, spec, from, k, &shares[k]) {
            Ok(()) => {}
            Err(fault) => return Err(fault),
        }
    }
    Ok(())
}

// Writes the line of a share if the share has an environment.
fn put_choice<K: Sink>(
    out: &mut K,
    spec: &Spec,
    from: ConfId,
    k: usize,
    share: &Share,
) -> Result<(), SinkFault>
    requires { IsShare spec.now (is_ruled_by spec.now from k) share.now }
    ensures { Prints result (K.state out.old) (K.state out.new) (choice_text spec.now from.0 k) }
{
    // From the use of a field, the prover knows that the specification satisfies its invariant.
    let _ = &spec.rules;
    match share.first {
        Some(first) => out.put(make_choice_line(spec, from, k, share.count, &first).as_bytes()),
        None => Ok(()),
    }
}
