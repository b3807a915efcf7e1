//! The places at which the conditions A11 on invariants and A12 on preconditions do not hold.

ghost use Rattle.std.specs.Prelude.{◌≡◌, ◌++◌, OnOk};
ghost use Rattle.condition_breaks.specs.Breaks.{invariant_break, invariant_breaks, precondition_break, precondition_breaks, unentered_at, unentered_of, unheld_at, unheld_of};
ghost use Rattle.condition_breaks.specs.Ranges.{all_ways};

use crate::breaks::{Break, Unheld, Way};
use crate::pushes::push_found;
use crate::ranges::{all_ways, first_unheld, hull_of};
use coverage_check::holding::breaks_entering;
use scram_types::{Invariant, NoMemory, Precondition, Spec};
use std::alloc::Global;

// Appends the place of A11 for each invariant that does not contain a range that it has to contain.
pub(crate) fn add_invariant_breaks(
    alloc: Global,
    breaks: &mut Vec<Break>,
    spec: &Spec,
) -> Result<(), NoMemory>
    ensures { OnOk result (breaks.new.items ≡ breaks.old.items ++ invariant_breaks spec.now) }
{
    let ways = all_ways(alloc, spec)?;
    add_unheld(breaks, spec, &ways)
}

fn add_unheld(breaks: &mut Vec<Break>, spec: &Spec, ways: &[Way]) -> Result<(), NoMemory>
    requires { ways.now ≡ all_ways spec.now }
    ensures { OnOk result (breaks.new.items ≡ breaks.old.items ++ invariant_breaks spec.now) }
{
    for k in 0..spec.invariants.items().len() as u32 {
        add_invariant_break(breaks, spec, ways, k)?;
    }
    Ok(())
}

fn add_invariant_break(
    breaks: &mut Vec<Break>,
    spec: &Spec,
    ways: &[Way],
    k: u32,
) -> Result<(), NoMemory>
    requires { ways.now ≡ all_ways spec.now }
    ensures { OnOk result (breaks.new.items ≡ breaks.old.items ++ invariant_break spec.now k) }
{
    push_found(breaks, unheld_at(spec, ways, k))
}

fn unheld_at(spec: &Spec, ways: &[Way], k: u32) -> Option<Break>
    requires { ways.now ≡ all_ways spec.now }
    ensures { result ≡ unheld_at spec.now k }
{
    match spec.invariants.items().get(k as usize) {
        Some(inv) => unheld_of(spec, ways, k, inv),
        None => None,
    }
}

// Returns the place of A11 for invariant `inv`, whose number is `k`, or `None` if the invariant contains all ranges
// that it has to contain. The place contains the first way whose range is missing, and the smallest interval that
// contains all ranges that the invariant has to contain.
fn unheld_of(spec: &Spec, ways: &[Way], k: u32, inv: &Invariant) -> Option<Break>
    requires { ways.now ≡ all_ways spec.now }
    ensures { result ≡ unheld_of spec.now k inv.now }
{
    match first_unheld(spec, inv, ways) {
        Some(way) => Some(Break::Unheld(Unheld {
            invariant: k,
            way,
            needed: hull_of(spec, inv, &way, ways),
        })),
        None => None,
    }
}

// Appends the place of A12 for each precondition that can fail when its configuration is entered.
pub(crate) fn add_precondition_breaks(breaks: &mut Vec<Break>, spec: &Spec) -> Result<(), NoMemory>
    ensures { OnOk result (breaks.new.items ≡ breaks.old.items ++ precondition_breaks spec.now) }
{
    for k in 0..spec.preconditions.items().len() as u32 {
        add_precondition_break(breaks, spec, k)?;
    }
    Ok(())
}

fn add_precondition_break(breaks: &mut Vec<Break>, spec: &Spec, k: u32) -> Result<(), NoMemory>
    ensures { OnOk result (breaks.new.items ≡ breaks.old.items ++ precondition_break spec.now k) }
{
    push_found(breaks, unentered_at(spec, k))
}

fn unentered_at(spec: &Spec, k: u32) -> Option<Break>
    ensures { result ≡ unentered_at spec.now k }
{
    match spec.preconditions.items().get(k as usize) {
        Some(pre) => unentered_of(spec, k, pre),
        None => None,
    }
}

// Returns the place of A12 for precondition `pre`, whose number is `k`, if the precondition can fail when its
// configuration is entered, or `None` if it cannot fail.
fn unentered_of(spec: &Spec, k: u32, pre: &Precondition) -> Option<Break>
    ensures { result ≡ unentered_of spec.now k pre.now }
{
    if breaks_entering(spec, pre) {
        Some(Break::PreconditionMissed(k))
    } else {
        None
    }
}
