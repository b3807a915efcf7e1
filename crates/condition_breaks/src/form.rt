//! The places at which the conditions A1 to A4 do not hold. A2 is a condition on the whole specification. The others
//! are conditions on each configuration.

ghost use Rattle.std.specs.Prelude.{◌≡◌, ◌++◌, OnOk};
ghost use Rattle.condition_breaks.specs.Breaks.{load_break, load_breaks, load_breaks_in, need_break, need_breaks, need_breaks_in, need_breaks_of, shape_break, shape_breaks, state_breaks};
ghost use Rattle.condition_breaks.specs.Form.{first_twin, is_one_of, is_need_off, is_needed};

use crate::breaks::Break;
use crate::pushes::push_if;
use choice_table::states;
use coverage_check::form::{is_empty, is_overloaded, is_same};
use scram_types::limits::MAX_ENVIRONMENTS;
use scram_types::{AppId, ConfId, NoMemory, ProcId, Spec};

// Appends the places of A1. There is a place for each application that is on in a configuration, and each application
// that it needs and that is off in the configuration.
pub(crate) fn add_need_breaks(breaks: &mut Vec<Break>, spec: &Spec) -> Result<(), NoMemory>
    ensures { OnOk result (breaks.new.items ≡ breaks.old.items ++ need_breaks spec.now) }
{
    for c in 0..spec.count_confs() {
        add_need_breaks_in(breaks, spec, c)?;
    }
    Ok(())
}

fn add_need_breaks_in(breaks: &mut Vec<Break>, spec: &Spec, c: u8) -> Result<(), NoMemory>
    ensures { OnOk result (breaks.new.items ≡ breaks.old.items ++ need_breaks_in spec.now c) }
{
    for a in 0..spec.count_apps() {
        add_need_breaks_of(breaks, spec, c, a)?;
    }
    Ok(())
}

fn add_need_breaks_of(breaks: &mut Vec<Break>, spec: &Spec, c: u8, a: u8) -> Result<(), NoMemory>
    ensures { OnOk result (breaks.new.items ≡ breaks.old.items ++ need_breaks_of spec.now c a) }
{
    for b in 0..spec.count_apps() {
        add_need_break(breaks, spec, c, a, b)?;
    }
    Ok(())
}

fn add_need_break(breaks: &mut Vec<Break>, spec: &Spec, c: u8, a: u8, b: u8) -> Result<(), NoMemory>
    ensures { OnOk result (breaks.new.items ≡ breaks.old.items ++ need_break spec.now c a b) }
{
    let is_off = is_need_off(spec, ConfId(c), a, b);
    push_if(
        breaks,
        is_off,
        Break::NeedOff(ConfId(c), AppId(a), AppId(b)),
    )
}

fn is_need_off(spec: &Spec, c: ConfId, a: u8, b: u8) -> bool
    ensures { result ≡ is_need_off spec.now c a b }
{
    spec.is_on(c, AppId(a)) && (is_needed(spec, a, b) && !spec.is_on(c, AppId(b)))
}

// Returns `true` if application `a` needs application `b`.
fn is_needed(spec: &Spec, a: u8, b: u8) -> bool
    ensures { result ≡ is_needed spec.now a b }
{
    match spec.apps.items().get(usize::from(a)) {
        Some(app) => is_one_of(app.needs.items(), b),
        None => false,
    }
}

fn is_one_of(needs: &[AppId], b: u8) -> bool
    ensures { result ≡ is_one_of needs.now b }
{
    needs.iter().any(|needed| needed.0 == b)
}

// Appends the place of A2 if more than `MAX_ENVIRONMENTS` environments are in scope.
pub(crate) fn add_state_breaks(breaks: &mut Vec<Break>, spec: &Spec) -> Result<(), NoMemory>
    ensures { OnOk result (breaks.new.items ≡ breaks.old.items ++ state_breaks spec.now) }
{
    push_if(breaks, MAX_ENVIRONMENTS < states(spec), Break::ManyStates)
}

// Appends the place of A3 for each configuration that has no application on or is the same as an earlier
// configuration.
pub(crate) fn add_shape_breaks(breaks: &mut Vec<Break>, spec: &Spec) -> Result<(), NoMemory>
    ensures { OnOk result (breaks.new.items ≡ breaks.old.items ++ shape_breaks spec.now) }
{
    for c in 0..spec.count_confs() {
        add_shape_break(breaks, spec, c)?;
    }
    Ok(())
}

fn add_shape_break(breaks: &mut Vec<Break>, spec: &Spec, c: u8) -> Result<(), NoMemory>
    ensures { OnOk result (breaks.new.items ≡ breaks.old.items ++ shape_break spec.now c) }
{
    if is_empty(spec, ConfId(c)) {
        breaks.push(Break::NothingOn(ConfId(c)))?;
        return Ok(());
    }
    match first_twin(spec, c) {
        Some(d) => push_if(breaks, true, Break::SameAgain(ConfId(c), d)),
        None => Ok(()),
    }
}

// Returns the first configuration before configuration `c` that is the same as `c`, or `None` if there is none.
fn first_twin(spec: &Spec, c: u8) -> Option<ConfId>
    ensures { result ≡ first_twin spec.now c }
{
    for d in 0..c {
        if is_same(spec, ConfId(c), ConfId(d)) {
            return Some(ConfId(d));
        }
    }
    None
}

// Appends the place of A4 for each processor that a configuration loads beyond its capacity.
pub(crate) fn add_load_breaks(breaks: &mut Vec<Break>, spec: &Spec) -> Result<(), NoMemory>
    ensures { OnOk result (breaks.new.items ≡ breaks.old.items ++ load_breaks spec.now) }
{
    for c in 0..spec.count_confs() {
        add_load_breaks_in(breaks, spec, c)?;
    }
    Ok(())
}

fn add_load_breaks_in(breaks: &mut Vec<Break>, spec: &Spec, c: u8) -> Result<(), NoMemory>
    ensures { OnOk result (breaks.new.items ≡ breaks.old.items ++ load_breaks_in spec.now c) }
{
    for p in 0..spec.count_procs() {
        add_load_break(breaks, spec, c, p)?;
    }
    Ok(())
}

fn add_load_break(breaks: &mut Vec<Break>, spec: &Spec, c: u8, p: u8) -> Result<(), NoMemory>
    ensures { OnOk result (breaks.new.items ≡ breaks.old.items ++ load_break spec.now c p) }
{
    let is_over = is_overloaded(spec, ConfId(c), p);
    push_if(breaks, is_over, Break::Overloaded(ConfId(c), ProcId(p)))
}
