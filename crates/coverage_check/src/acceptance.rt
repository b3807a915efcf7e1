//! Acceptance: the conditions A1 to A13, in order.

ghost use Rattle.std.specs.Prelude.{◌≡◌, IfErr, IfOk, None, OnOk};
ghost use Rattle.coverage_check.specs.Acceptance.{AcceptsIffUnrefused, ShownIsBroken, choice_refusal, first_refusal, form_refusal, range_refusal, time_refusal};
ghost use Rattle.coverage_check.specs.Answers.{IsRefusal};
ghost use Rattle.coverage_check.specs.TargetSets.{HasCovers};

use crate::choosing::{Requirement, refuse_requirement, refuse_start};
use crate::demands::refuse_demand;
use crate::form::{refuse_load, refuse_need, refuse_shape, refuse_states};
use crate::holding::{refuse_invariant, refuse_precondition};
use crate::shown::Shown;
use crate::target_sets::find_covers;
use crate::timing::{refuse_bound, refuse_window};
use cube_cover::Cover;
use scram_types::{NoMemory, Spec};
use std::alloc::Global;

/// A specification for which all thirteen conditions of acceptance hold.
pub struct Accepted {
    spec: Spec,
}

// A derived drop is laid out in the proof of each function that drops the value, and this one is a call.
impl Drop for Accepted {
    fn drop(self) {
        let Accepted { spec: _ } = self;
    }
}

impl std::marker::Model for Accepted {
    ghost use Rattle.scram_types.specs.Specification.{Parts};
    ghost use Rattle.coverage_check.specs.Acceptance.{Accepts};

    ghost Value = { Parts };

    ghost view = { λ a. a.spec };

    ghost invariant = { λ a. Accepts a.spec };
}

impl Accepted {
    ghost use Rattle.std.specs.Prelude.{◌≡◌};

    /// Returns the specification.
    pub fn spec(&self) -> &Spec
        ensures { result.now ≡ self.now }
    {
        &self.spec
    }
}

/// The reason why a specification is not accepted, with the unchanged specification.
#[derive(Drop)]
pub enum AcceptError {
    /// A condition does not hold. The refusal contains the first such condition and the first place where it is
    /// broken.
    NotAccepted(Spec, Shown),
    NoMemory(Spec),
}

/// Accepts a specification if all conditions, A1 to A13, hold.
///
/// # Errors
///
/// Returns the refusal by the first condition that does not hold, at the first place where that condition is broken.
/// Places are ordered by configuration, then by the number of the environment, then by the other value. For
/// invariants and preconditions, places are ordered by item, then by configuration. For demands, places are ordered
/// by configuration, then by demand, then by environment. Returns `NoMemory` if memory runs out. Both errors contain
/// the specification.
#[tactic(auto, using(crate::proofs::Accepting::accepted))]
pub fn accept(alloc: Global, spec: Spec) -> Result<Accepted, AcceptError>
    ensures accepted { IfOk result (λ accepted. accepted ≡ spec) }
    ensures holds { OnOk result (first_refusal spec ≡ None) }
    ensures refused { IfErr result (λ refusal. IsRefusal spec refusal) }
{
    match first_refusal(alloc, &spec) {
        Ok(None) => Ok(Accepted { spec }),
        Ok(Some(shown)) => Err(AcceptError::NotAccepted(spec, shown)),
        Err(NoMemory) => Err(AcceptError::NoMemory(spec)),
    }
}

fn first_refusal(alloc: Global, spec: &Spec) -> Result<Option<Shown>, NoMemory>
    ensures { IfOk result (λ refusal. refusal ≡ first_refusal spec.now) }
{
    if let Some(shown) = refuse_form(spec) {
        return Ok(Some(shown));
    }
    let covers = find_covers(alloc, spec)?;
    if let Some(shown) = refuse_choice(spec, &covers) {
        return Ok(Some(shown));
    }
    if let Some(shown) = refuse_time(spec, &covers) {
        return Ok(Some(shown));
    }
    if let Some(shown) = refuse_ranges(spec, &covers) {
        return Ok(Some(shown));
    }
    refuse_demand(alloc, spec)
}

fn refuse_form(spec: &Spec) -> Option<Shown>
    ensures { result ≡ form_refusal spec.now }
{
    if let Some(shown) = refuse_need(spec) {
        return Some(shown);
    }
    if let Some(shown) = refuse_states(spec) {
        return Some(shown);
    }
    if let Some(shown) = refuse_shape(spec) {
        return Some(shown);
    }
    refuse_load(spec)
}

fn refuse_choice(spec: &Spec, covers: &[Cover; 12]) -> Option<Shown>
    requires { HasCovers spec.now covers.now }
    ensures { result ≡ choice_refusal spec.now }
{
    if let Some(shown) = refuse_requirement(spec, covers, Requirement::HasRule) {
        return Some(shown);
    }
    if let Some(shown) = refuse_requirement(spec, covers, Requirement::CanRun) {
        return Some(shown);
    }
    if let Some(shown) = refuse_requirement(spec, covers, Requirement::Stays) {
        return Some(shown);
    }
    refuse_start(spec)
}

fn refuse_time(spec: &Spec, covers: &[Cover; 12]) -> Option<Shown>
    requires { HasCovers spec.now covers.now }
    ensures { result ≡ time_refusal spec.now }
{
    if let Some(shown) = refuse_bound(spec, covers) {
        return Some(shown);
    }
    refuse_window(spec)
}

fn refuse_ranges(spec: &Spec, covers: &[Cover; 12]) -> Option<Shown>
    requires { HasCovers spec.now covers.now }
    ensures { result ≡ range_refusal spec.now }
{
    if let Some(shown) = refuse_invariant(spec, covers) {
        return Some(shown);
    }
    refuse_precondition(spec)
}

/// States that a specification has no refusal if and only if all conditions hold.
pub fn accepts_iff_unrefused()
    ensures { AcceptsIffUnrefused }
{}

/// States that the place in a refusal exists in the specification, and that the condition does not hold there.
pub fn shown_is_broken()
    ensures { ShownIsBroken }
{}
