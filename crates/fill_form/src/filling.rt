//! The search for sufficient bounds. If a bound or the window would be too long, the search also finds the refusal.

ghost use Rattle.std.specs.Prelude.{◌≡◌, ◌<◌, ◌++◌, IfOk, OnOk, length, map};
ghost use Rattle.std.specs.Option.{option_or};
ghost use Rattle.coverage_check.specs.Timing.{asked_bounds};
ghost use Rattle.spec_forms.specs.Bounds.{AreAskedBounds};
ghost use Rattle.fill_form.specs.Filling.{filled_bounds, is_bound_missing, missing_bound, missing_bounds, missing_from, raised};
ghost use Rattle.fill_form.specs.Refusing.{IsFilling, long_refusal, wide_refusal};

use crate::refusing::{refuse_long, refuse_wide};
use coverage_check::{Shown, greatest_of, is_asked, least};
use scram_types::{Bound, ConfId, NoMemory, Spec};
use spec_forms::find_asked;
use std::alloc::{AllocError, Global};

/// Sufficient bounds of a specification, the greatest of them, and the refusal if a bound or the window would be too
/// long.
#[derive(Drop)]
pub struct Filling {
    pub bounds: Vec<Bound>,
    pub greatest: u32,
    pub refusal: Option<Shown>,
}

/// Returns the filling of a specification. Its bounds are the given bounds, each raised as far as required, followed
/// by the missing bounds in the order of their sources and then of their targets.
///
/// # Errors
///
/// Returns an error if memory runs out.
pub fn find_filling(alloc: Global, spec: &Spec) -> Result<Filling, NoMemory>
    ensures { IfOk result (λ filling. IsFilling spec.now filling) }
{
    let sets = find_asked(alloc, spec)?;
    let bounds = fill_bounds(alloc, spec, &sets)?;
    let greatest = greatest_of(&bounds);
    let refusal = refuse_length(spec, &sets, greatest);
    Ok(Filling {
        bounds,
        greatest,
        refusal,
    })
}

fn refuse_length(spec: &Spec, sets: &[u16; 12], greatest: u32) -> Option<Shown>
    requires { AreAskedBounds spec.now sets.now }
    ensures { result ≡ option_or (long_refusal spec.now) (wide_refusal greatest) }
{
    match refuse_long(spec, sets) {
        Some(shown) => Some(shown),
        None => refuse_wide(greatest),
    }
}

fn fill_bounds(alloc: Global, spec: &Spec, sets: &[u16; 12]) -> Result<Vec<Bound>, NoMemory>
    requires { AreAskedBounds spec.now sets.now }
    ensures { IfOk result (λ bounds. bounds.items ≡ filled_bounds spec.now) }
{
    let mut bounds = raise_bounds(alloc, spec, sets)?;
    add_missing(&mut bounds, spec, sets)?;
    Ok(bounds)
}

fn raise_bounds(alloc: Global, spec: &Spec, sets: &[u16; 12]) -> Result<Vec<Bound>, NoMemory>
    requires { AreAskedBounds spec.now sets.now }
    ensures { IfOk result (λ bounds. bounds.items ≡ map (raised spec.now) spec.now.bounds) }
{
    let mut bounds = Vec::new(alloc);
    for bound in spec.bounds.items() {
        bounds.push(raised(spec, sets[usize::from(bound.from.0)], bound))?;
    }
    Ok(bounds)
}

// Returns a given bound, raised to the smallest sufficient length if the bound is required and shorter than this
// length. `set` contains the configurations to which a bound from the source of `bound` is required.
fn raised(spec: &Spec, set: u16, bound: &Bound) -> Bound
    requires set { set ≡ asked_bounds spec.now bound.now.from }
    requires to { bound.now.to.0 < length spec.now.confs }
    requires few { bound.now.to.0 < 12 }
    ensures { result ≡ raised spec.now bound.now }
{
    let (from, to) = (bound.from, bound.to);
    let frames = if is_asked(spec, set, from, to) {
        bound.frames.max(least(spec, from, to))
    } else {
        bound.frames
    };
    Bound { from, to, frames }
}

// Appends the smallest sufficient bounds that are required but not given.
fn add_missing(bounds: &mut Vec<Bound>, spec: &Spec, sets: &[u16; 12]) -> Result<(), AllocError>
    requires { AreAskedBounds spec.now sets.now }
    ensures { OnOk result (bounds.new.items ≡ bounds.old.items ++ missing_bounds spec.now) }
{
    for i in 0..spec.count_confs() {
        add_missing_from(bounds, spec, ConfId(i), sets[usize::from(i)])?;
    }
    Ok(())
}

fn add_missing_from(
    bounds: &mut Vec<Bound>,
    spec: &Spec,
    from: ConfId,
    set: u16,
) -> Result<(), AllocError>
    requires { set ≡ asked_bounds spec.now from }
    ensures { OnOk result (bounds.new.items ≡ bounds.old.items ++ missing_from spec.now from.0) }
{
    for j in 0..spec.count_confs() {
        add_missing_bound(bounds, spec, set, from, ConfId(j))?;
    }
    Ok(())
}

fn add_missing_bound(
    bounds: &mut Vec<Bound>,
    spec: &Spec,
    set: u16,
    from: ConfId,
    to: ConfId,
) -> Result<(), AllocError>
    requires set { set ≡ asked_bounds spec.now from }
    requires to { to.0 < length spec.now.confs }
    requires few { to.0 < 12 }
    ensures { OnOk result (bounds.new.items ≡ bounds.old.items ++ missing_bound spec.now from.0 to.0) }
{
    if is_bound_missing(spec, set, from, to) {
        let frames = least(spec, from, to);
        bounds.push(Bound { from, to, frames })?;
    }
    Ok(())
}

fn is_bound_missing(spec: &Spec, set: u16, from: ConfId, to: ConfId) -> bool
    requires set { set ≡ asked_bounds spec.now from }
    requires to { to.0 < length spec.now.confs }
    requires few { to.0 < 12 }
    ensures { result ≡ is_bound_missing spec.now from.0 to.0 }
{
    is_asked(spec, set, from, to) && spec.bound(from, to).is_none()
}
