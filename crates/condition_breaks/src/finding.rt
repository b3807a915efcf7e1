//! The places at which a condition does not hold, by the condition's number.

ghost use Rattle.std.specs.Prelude.{◌≡◌, ◌++◌, IfOk, OnOk};
ghost use Rattle.condition_breaks.specs.Breaks.{breaks, choice_breaks, later_breaks};

use crate::breaks::Break;
use crate::choosing::{add_start_breaks, add_unmet_breaks};
use crate::demands::add_demand_breaks;
use crate::form::{add_load_breaks, add_need_breaks, add_shape_breaks, add_state_breaks};
use crate::holding::{add_invariant_breaks, add_precondition_breaks};
use crate::timing::{add_bound_breaks, add_window_breaks};
use coverage_check::choosing::Requirement;
use scram_types::{NoMemory, Spec};
use std::alloc::Global;

/// Returns the places at which the condition with the number `condition` does not hold, in order, or an empty list if
/// the number is not 1 to 13.
///
/// # Errors
///
/// Returns an error if memory runs out.
pub fn breaks_of(alloc: Global, spec: &Spec, condition: u8) -> Result<Vec<Break>, NoMemory>
    ensures { IfOk result (λ found. found.items ≡ breaks spec.now condition) }
{
    let mut found = Vec::new(alloc);
    add_breaks(alloc, &mut found, spec, condition)?;
    Ok(found)
}

fn add_breaks(
    alloc: Global,
    found: &mut Vec<Break>,
    spec: &Spec,
    condition: u8,
) -> Result<(), NoMemory>
    ensures { OnOk result (found.new.items ≡ found.old.items ++ breaks spec.now condition) }
{
    match condition {
        1 => add_need_breaks(found, spec),
        2 => add_state_breaks(found, spec),
        3 => add_shape_breaks(found, spec),
        4 => add_load_breaks(found, spec),
        _ => add_choice_breaks(alloc, found, spec, condition),
    }
}

fn add_choice_breaks(
    alloc: Global,
    found: &mut Vec<Break>,
    spec: &Spec,
    condition: u8,
) -> Result<(), NoMemory>
    ensures { OnOk result (found.new.items ≡ found.old.items ++ choice_breaks spec.now condition) }
{
    match condition {
        5 => add_unmet_breaks(alloc, found, spec, Requirement::HasRule),
        6 => add_unmet_breaks(alloc, found, spec, Requirement::CanRun),
        7 => add_unmet_breaks(alloc, found, spec, Requirement::Stays),
        8 => add_start_breaks(found, spec),
        _ => add_later_breaks(alloc, found, spec, condition),
    }
}

fn add_later_breaks(
    alloc: Global,
    found: &mut Vec<Break>,
    spec: &Spec,
    condition: u8,
) -> Result<(), NoMemory>
    ensures { OnOk result (found.new.items ≡ found.old.items ++ later_breaks spec.now condition) }
{
    match condition {
        9 => add_bound_breaks(alloc, found, spec),
        10 => add_window_breaks(found, spec),
        11 => add_invariant_breaks(alloc, found, spec),
        12 => add_precondition_breaks(found, spec),
        13 => add_demand_breaks(alloc, found, spec),
        _ => Ok(()),
    }
}
