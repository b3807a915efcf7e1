//! The form `bounds`, which lists the bounds that a specification must give.

ghost use Rattle.std.specs.Prelude.{◌≡◌, ◌<◌, ◌∷◌, [], IfOk, length};
ghost use Rattle.coverage_check.specs.Form.{state_refusal};
ghost use Rattle.coverage_check.specs.Timing.{asked_bounds};
ghost use Rattle.scram_io.specs.Outside.{Prints};
ghost use Rattle.form_base.specs.Answers.{Gives};
ghost use Rattle.form_base.specs.Endings.{Ends, IsTaken, Prepares, PreparesWithoutFiles};
ghost use Rattle.form_base.specs.declared.status.TheConstants.{ANSWERED};
ghost use Rattle.spec_forms.specs.Answers.{BoundsAnswers, bounds_answer};
ghost use Rattle.spec_forms.specs.Asked.{AreAsked, GivesBounds};
ghost use Rattle.spec_forms.specs.Bounds.{AreAskedBounds, bound_text_of, bounds_text, bounds_text_from};

use crate::lines::make_bound_line;
use coverage_check::{asked_bounds, is_asked, refuse_states};
use form_base::lines::make_shown_line;
use form_base::loads::load;
use form_base::printing::{print_refusal, status_after};
use form_base::refusals::{Refusal, Refused};
use form_base::specifications::Specification;
use form_base::status::{ANSWERED, Status};
use scram_io::{Files, Sink, SinkFault};
use scram_types::{ConfId, NoMemory, Spec};
use std::alloc::Global;

/// A specification with a set for each configuration. Set `i` holds, as bits, the configurations to which a bound
/// from configuration `i` is required.
#[derive(Drop)]
struct Asked {
    spec: Spec,
    sets: [u16; 12],
}

/// Prints each bound that the specification in a file must give, with the smallest value that suffices and the given
/// value. Prints the refusal instead if too many environments are in scope.
pub fn bounds<F: Files, K: Sink>(
    alloc: Global,
    specification: &str,
    files: &mut F,
    out: &mut K,
) -> Status
    ensures { Ends (BoundsAnswers specification.now) (specification.now ∷ [])
        (F.state files.old) (F.state files.new) (IsTaken (K.state out.old) (K.state out.new) result.code) }
{
    match read_asked(alloc, specification, files) {
        Ok(asked) => {
            let status = status_after(put_bounds(out, &asked.spec, &asked.sets), ANSWERED);
            drop(asked);
            status
        }
        Err(refusal) => print_refusal(out, &refusal),
    }
}

/// Reads the specification and finds the bounds that it must give, or returns the refusal.
fn read_asked<F: Files>(alloc: Global, specification: &str, files: &mut F) -> Result<Asked, Refusal>
    ensures reads { Prepares (BoundsAnswers specification.now) GivesBounds (specification.now ∷ []) (F.state files.old) (F.state files.new) result }
    ensures asked { IfOk result AreAsked }
{
    match load(alloc, &Specification, specification, files) {
        Ok(spec) => find_bounds(alloc, spec),
        Err(refusal) => Err(refusal),
    }
}

fn find_bounds(alloc: Global, spec: Spec) -> Result<Asked, Refusal>
    ensures prepares { PreparesWithoutFiles (Gives (bounds_answer spec (state_refusal spec))) GivesBounds result }
    ensures asked { IfOk result AreAsked }
{
    if let Some(shown) = refuse_states(&spec) {
        let line = make_shown_line(&spec, &shown);
        drop(spec);
        return Err(Refusal::new(Refused::Acceptance, line));
    }
    match find_asked(alloc, &spec) {
        Ok(sets) => Ok(Asked { spec, sets }),
        Err(NoMemory) => {
            drop(spec);
            Err(Refusal::out_of_memory())
        }
    }
}

/// Returns a set for each configuration. Set `i` holds, as bits, the configurations to which a bound from
/// configuration `i` is required.
///
/// # Errors
///
/// Returns an error if memory runs out.
pub fn find_asked(alloc: Global, spec: &Spec) -> Result<[u16; 12], NoMemory>
    ensures { IfOk result (λ sets. AreAskedBounds spec.now sets) }
{
    let mut sets = [0; 12];
    for i in 0..spec.count_confs() {
        sets[usize::from(i)] = asked_bounds(alloc, spec, ConfId(i))?;
    }
    Ok(sets)
}

fn put_bounds<K: Sink>(out: &mut K, spec: &Spec, sets: &[u16; 12]) -> Result<(), SinkFault>
    requires { AreAskedBounds spec.now sets.now }
    ensures { Prints result (K.state out.old) (K.state out.new) (bounds_text spec.now) }
{
    for i in 0..spec.count_confs() {
        match put_bounds_from(out, spec, sets[usize::from(i)], ConfId(i)) {
            Ok(()) => {}
            Err(fault) => return Err(fault),
        }
    }
    Ok(())
}

fn put_bounds_from<K: Sink>(
    out: &mut K,
    spec: &Spec,
    set: u16,
    from: ConfId,
) -> Result<(), SinkFault>
    requires { set ≡ asked_bounds spec.now from }
    ensures { Prints result (K.state out.old) (K.state out.new) (bounds_text_from spec.now from.0) }
{
    for j in 0..spec.count_confs() {
        match put_bound(out, spec, set, from, ConfId(j)) {
            Ok(()) => {}
            Err(fault) => return Err(fault),
        }
    }
    Ok(())
}

// Writes the line of the bound from `from` to `to` if the bound is required.
fn put_bound<K: Sink>(
    out: &mut K,
    spec: &Spec,
    set: u16,
    from: ConfId,
    to: ConfId,
) -> Result<(), SinkFault>
    requires set { set ≡ asked_bounds spec.now from }
    requires to { to.0 < length spec.now.confs }
    requires few { to.0 < 12 }
    ensures { Prints result (K.state out.old) (K.state out.new) (bound_text_of spec.now from.0 to.0) }
{
    if is_asked(spec, set, from, to) {
        out.put(make_bound_line(spec, from, to).as_bytes())
    } else {
        Ok(())
    }
}
