//! The places at which the conditions A9 on bounds and A10 on the window do not hold.

ghost use Rattle.std.specs.Prelude.{◌≡◌, ◌++◌, ◌<◌, OnOk, length};
ghost use Rattle.scram_types.specs.Lookups.{conf_id};
ghost use Rattle.coverage_check.specs.Timing.{asked_bounds, has_short_window, lacks_bound};
ghost use Rattle.condition_breaks.specs.Breaks.{bound_breaks, bound_breaks_from, window_breaks};

use crate::breaks::Break;
use crate::pushes::push_if;
use coverage_check::timing::is_bounded;
use coverage_check::{asked_bounds, greatest_bound, is_asked};
use scram_types::{ConfId, NoMemory, Spec};
use std::alloc::Global;

// Appends the place of A9 for each pair of configurations for which a bound is required and no sufficient bound is
// given.
pub(crate) fn add_bound_breaks(
    alloc: Global,
    breaks: &mut Vec<Break>,
    spec: &Spec,
) -> Result<(), NoMemory>
    ensures { OnOk result (breaks.new.items ≡ breaks.old.items ++ bound_breaks spec.now) }
{
    for i in 0..spec.count_confs() {
        let set = asked_bounds(alloc, spec, ConfId(i))?;
        add_bound_breaks_from(breaks, spec, set, i)?;
    }
    Ok(())
}

// Appends the places of A9 for bounds from configuration `i`. `set` contains the configurations to which a bound from
// `i` is required.
fn add_bound_breaks_from(
    breaks: &mut Vec<Break>,
    spec: &Spec,
    set: u16,
    i: u8,
) -> Result<(), NoMemory>
    requires { set ≡ asked_bounds spec.now (conf_id i) }
    ensures { OnOk result (breaks.new.items ≡ breaks.old.items ++ bound_breaks_from spec.now i) }
{
    for j in 0..spec.count_confs() {
        let lacks = lacks_bound(spec, set, ConfId(i), ConfId(j));
        push_if(breaks, lacks, Break::BoundLacking(ConfId(i), ConfId(j)))?;
    }
    Ok(())
}

fn lacks_bound(spec: &Spec, set: u16, i: ConfId, j: ConfId) -> bool
    requires set { set ≡ asked_bounds spec.now i }
    requires inside { j.0 < length spec.now.confs }
    ensures { result ≡ lacks_bound spec.now i j.0 }
{
    is_asked(spec, set, i, j) && !is_bounded(spec, i, j)
}

// Appends the place of A10 if the window is not longer than the greatest bound.
pub(crate) fn add_window_breaks(breaks: &mut Vec<Break>, spec: &Spec) -> Result<(), NoMemory>
    ensures { OnOk result (breaks.new.items ≡ breaks.old.items ++ window_breaks spec.now) }
{
    push_if(breaks, has_short_window(spec), Break::WindowShort)
}

fn has_short_window(spec: &Spec) -> bool
    ensures { result ≡ has_short_window spec.now }
{
    u64::from(spec.window) < u64::from(greatest_bound(spec)) + 1
}
