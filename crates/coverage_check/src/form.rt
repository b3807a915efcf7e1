//! The conditions A1 to A4: the needs of applications are met, not too many environments are in scope, configurations
//! are distinct and not empty, and no processor is overloaded.

ghost use Rattle.std.specs.Prelude.{◌≡◌, length};
ghost use Rattle.std.specs.Option.{option_map_or};
ghost use Rattle.scram_types.specs.declared.specification.ModeSpec.{ModeSpec};
ghost use Rattle.scram_types.specs.Lookups.{mode_of_app};
ghost use Rattle.coverage_check.specs.Form.{capacity_of, has_off, has_off_need, is_empty, is_overloaded, is_same, is_same_place, lacks_need, load_below, load_of, load_refusal, load_refusal_in, need_refusal, need_refusal_in, shape_refusal, shape_refusal_of, state_refusal, twin_refusal_of};

use crate::shown::{Other, Shown};
use choice_table::states;
use scram_types::limits::MAX_ENVIRONMENTS;
use scram_types::{AppId, ConfId, Mode, ModeSpec, Place, ProcId, Spec};

// Returns the refusal for the first configuration in which an application is on while an application that it needs is
// off (A1), or `None` if there is no such configuration.
pub(crate) fn refuse_need(spec: &Spec) -> Option<Shown>
    ensures { result ≡ need_refusal spec.now }
{
    for c in 0..spec.count_confs() {
        let shown = refuse_need_in(spec, c);
        if shown.is_some() {
            return shown;
        }
    }
    None
}

fn refuse_need_in(spec: &Spec, c: u8) -> Option<Shown>
    ensures { result ≡ need_refusal_in spec.now c }
{
    for a in 0..spec.count_apps() {
        if lacks_need(spec, ConfId(c), a) {
            return Some(Shown::at(1, c, Other::App(AppId(a))));
        }
    }
    None
}

fn lacks_need(spec: &Spec, c: ConfId, a: u8) -> bool
    ensures { result ≡ lacks_need spec.now c a }
{
    spec.is_on(c, AppId(a)) && has_off_need(spec, c, a)
}

fn has_off_need(spec: &Spec, c: ConfId, a: u8) -> bool
    ensures { result ≡ has_off_need spec.now c a }
{
    match spec.apps.items().get(usize::from(a)) {
        Some(app) => has_off(spec, c, app.needs.items()),
        None => false,
    }
}

fn has_off(spec: &Spec, c: ConfId, needs: &[AppId]) -> bool
    ensures { result ≡ has_off spec.now c needs.now }
{
    needs.iter().any(|needed| !spec.is_on(c, *needed))
}

/// Returns the refusal if more than [`MAX_ENVIRONMENTS`] environments are in scope (A2), or `None` otherwise. The
/// refusal contains the number of environments in scope.
pub fn refuse_states(spec: &Spec) -> Option<Shown>
    ensures { result ≡ state_refusal spec.now }
{
    let states = states(spec);
    if MAX_ENVIRONMENTS < states {
        Some(Shown::nowhere(2, Other::Count(states)))
    } else {
        None
    }
}

// Returns the refusal for the first configuration that has no application on or equals an earlier one (A3), or `None`
// if there is no such configuration.
pub(crate) fn refuse_shape(spec: &Spec) -> Option<Shown>
    ensures { result ≡ shape_refusal spec.now }
{
    for c in 0..spec.count_confs() {
        let shown = refuse_shape_of(spec, c);
        if shown.is_some() {
            return shown;
        }
    }
    None
}

fn refuse_shape_of(spec: &Spec, c: u8) -> Option<Shown>
    ensures { result ≡ shape_refusal_of spec.now c }
{
    if is_empty(spec, ConfId(c)) {
        Some(Shown::at(3, c, Other::Nothing))
    } else {
        refuse_twin_of(spec, c)
    }
}

/// Returns `true` if no application is on in a configuration.
pub fn is_empty(spec: &Spec, c: ConfId) -> bool
    ensures { result ≡ is_empty spec.now c }
{
    for a in 0..8 {
        if spec.is_on(c, AppId(a)) {
            return false;
        }
    }
    true
}

fn refuse_twin_of(spec: &Spec, c: u8) -> Option<Shown>
    ensures { result ≡ twin_refusal_of spec.now c }
{
    for d in 0..c {
        if is_same(spec, ConfId(c), ConfId(d)) {
            return Some(Shown::at(3, c, Other::Conf(ConfId(d))));
        }
    }
    None
}

/// Returns `true` if two configurations give each application the same mode and processor.
pub fn is_same(spec: &Spec, c: ConfId, d: ConfId) -> bool
    ensures { result ≡ is_same spec.now c d }
{
    for a in 0..8 {
        if !is_same_place(spec.place_of(c, AppId(a)), spec.place_of(d, AppId(a))) {
            return false;
        }
    }
    true
}

fn is_same_place(one: Option<Place>, other: Option<Place>) -> bool
    ensures { result ≡ is_same_place one other }
{
    match (one, other) {
        (None, None) => true,
        (None, Some(_)) | (Some(_), None) => false,
        (Some(one), Some(other)) => one.mode.0 == other.mode.0 && one.proc.0 == other.proc.0,
    }
}

// Returns the refusal for the first configuration that loads a processor beyond its capacity (A4), or `None` if there
// is no such configuration.
pub(crate) fn refuse_load(spec: &Spec) -> Option<Shown>
    ensures { result ≡ load_refusal spec.now }
{
    for c in 0..spec.count_confs() {
        let shown = refuse_load_in(spec, c);
        if shown.is_some() {
            return shown;
        }
    }
    None
}

fn refuse_load_in(spec: &Spec, c: u8) -> Option<Shown>
    ensures { result ≡ load_refusal_in spec.now c }
{
    for p in 0..spec.count_procs() {
        if is_overloaded(spec, ConfId(c), p) {
            return Some(Shown::at(4, c, Other::Proc(ProcId(p))));
        }
    }
    None
}

/// Returns `true` if configuration `c` loads processor `p` beyond its capacity.
pub fn is_overloaded(spec: &Spec, c: ConfId, p: u8) -> bool
    ensures { result ≡ is_overloaded spec.now c p }
{
    u64::from(capacity_of(spec, p)) < load_on(spec, c, p)
}

/// Returns the capacity of a processor, in load units, or 0 if the processor does not exist.
pub fn capacity_of(spec: &Spec, p: u8) -> u32
    ensures { result ≡ capacity_of spec.now p }
{
    match spec.procs.items().get(usize::from(p)) {
        Some(proc) => proc.capacity,
        None => 0,
    }
}

/// Returns the load that configuration `c` puts on processor `p`, in load units.
pub fn load_on(spec: &Spec, c: ConfId, p: u8) -> u64
    ensures { result ≡ load_below spec.now c p (length spec.now.apps) }
{
    let mut load = 0;
    for a in 0..spec.count_apps() {
        load += u64::from(load_of(spec, c, p, a));
    }
    load
}

fn load_of(spec: &Spec, c: ConfId, p: u8, a: u8) -> u32
    ensures { result ≡ load_of spec.now c p a }
{
    match spec.place_of(c, AppId(a)) {
        Some(place) => {
            if place.proc.0 == p {
                load_in_mode(spec, a, place.mode)
            } else {
                0
            }
        }
        None => 0,
    }
}

fn load_in_mode(spec: &Spec, a: u8, mode: Mode) -> u32
    ensures { result ≡ option_map_or (λ (listed : ModeSpec). listed.load) (mode_of_app spec.now a mode.0) 0 }
{
    match spec.mode_of_app(AppId(a), mode) {
        Some(listed) => listed.load,
        None => 0,
    }
}
