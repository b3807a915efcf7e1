//! The conditions A11 and A12 on the intervals of invariants and preconditions.

ghost use Rattle.std.specs.Prelude.{◌≡◌, ◌<◌, length};
ghost use Rattle.choice_table.specs.Choices.{has_source};
ghost use Rattle.coverage_check.specs.Holding.{breaks_entering, breaks_from, holds_during, holds_from, holds_leaving, holds_off, holds_on_way, holds_range, holds_reached, holds_reaching, invariant_refusal, invariant_refusal_at, invariant_refusal_of, precondition_refusal, precondition_refusal_at, precondition_refusal_of};
ghost use Rattle.scram_types.specs.Lookups.{conf_id};
ghost use Rattle.scram_types.specs.Specification.{IsSpec};
ghost use Rattle.cube_cover.specs.Covers.{IsCover};
ghost use Rattle.coverage_check.specs.TargetSets.{HasCovers};

use crate::shown::{Other, Shown};
use choice_table::has_source;
use cube_cover::Cover;
use kind_table::{after_init, during};
use scram_types::bits::is_in;
use scram_types::{AppId, ConfId, Invariant, KindId, Mode, Place, Precondition, Spec};

// Returns the refusal for the first invariant that may be broken during a reconfiguration (A11), at the first
// configuration from which such a reconfiguration may begin. Returns `None` if no invariant may be broken.
pub(crate) fn refuse_invariant(spec: &Spec, covers: &[Cover; 12]) -> Option<Shown>
    requires { HasCovers spec.now covers.now }
    ensures { result ≡ invariant_refusal spec.now }
{
    for k in 0..spec.invariants.items().len() as u32 {
        let shown = refuse_invariant_at(spec, covers, k);
        if shown.is_some() {
            return shown;
        }
    }
    None
}

fn refuse_invariant_at(spec: &Spec, covers: &[Cover; 12], k: u32) -> Option<Shown>
    requires { HasCovers spec.now covers.now }
    ensures { result ≡ invariant_refusal_at spec.now k }
{
    match spec.invariants.items().get(k as usize) {
        Some(inv) => refuse_invariant_of(spec, covers, k, inv),
        None => None,
    }
}

fn refuse_invariant_of(spec: &Spec, covers: &[Cover; 12], k: u32, inv: &Invariant) -> Option<Shown>
    requires { HasCovers spec.now covers.now }
    ensures { result ≡ invariant_refusal_of spec.now k inv.now }
{
    for i in 0..spec.count_confs() {
        if breaks_from(spec, &covers[usize::from(i)], inv, i) {
            return Some(Shown::at(11, i, Other::Item(k)));
        }
    }
    None
}

fn breaks_from(spec: &Spec, cover: &Cover, inv: &Invariant, i: u8) -> bool
    requires { IsCover spec.now (conf_id i) cover.now }
    ensures { result ≡ breaks_from spec.now inv.now (conf_id i) }
{
    has_source(inv.from, ConfId(i)) && !holds_from(spec, cover, inv, i)
}

fn holds_from(spec: &Spec, cover: &Cover, inv: &Invariant, i: u8) -> bool
    requires { IsCover spec.now (conf_id i) cover.now }
    ensures { result ≡ holds_from spec.now inv.now (conf_id i) }
{
    holds_leaving(spec, inv, spec.place_of(ConfId(i), inv.app))
        && holds_reached(spec, cover, inv, i)
}

// Returns `true` if the invariant's interval contains the values of its variable while each possible target of `i` is
// reached and left again.
fn holds_reached(spec: &Spec, cover: &Cover, inv: &Invariant, i: u8) -> bool
    requires { IsCover spec.now (conf_id i) cover.now }
    ensures { result ≡ holds_reached spec.now inv.now (conf_id i) }
{
    for j in 0..spec.count_confs() {
        if !holds_on_way(spec, cover, inv, i, j) {
            return false;
        }
    }
    true
}

fn holds_on_way(spec: &Spec, cover: &Cover, inv: &Invariant, i: u8, j: u8) -> bool
    requires known { IsSpec spec.now }
    requires cover { IsCover spec.now (conf_id i) cover.now }
    requires inside { j < length spec.now.confs }
    ensures { result ≡ holds_on_way spec.now inv.now (conf_id i) j }
{
    !is_in(cover.targets, j) || holds_reaching(spec, inv, spec.place_of(ConfId(j), inv.app))
}

// Returns `true` if the invariant's interval contains the values of its variable as the application initialises, runs
// and halts at a place. With `None`, the application is off and the only value is zero.
fn holds_leaving(spec: &Spec, inv: &Invariant, place: Option<Place>) -> bool
    ensures { result ≡ holds_leaving spec.now inv.now place }
{
    match place {
        Some(place) => {
            holds_during(spec, inv, 4, place.mode)
                && holds_during(spec, inv, 1, place.mode)
                && holds_during(spec, inv, 2, place.mode)
        }
        None => holds_off(inv),
    }
}

// Returns `true` if the invariant's interval contains the values of its variable as the application prepares,
// initialises, runs and halts at a place. With `None`, the application is off and the only value is zero.
fn holds_reaching(spec: &Spec, inv: &Invariant, place: Option<Place>) -> bool
    ensures { result ≡ holds_reaching spec.now inv.now place }
{
    match place {
        Some(reached) => holds_during(spec, inv, 3, reached.mode)
            && holds_leaving(spec, inv, place),
        None => holds_off(inv),
    }
}

// Returns `true` if the invariant's interval contains the range of its variable for a status in a mode.
fn holds_during(spec: &Spec, inv: &Invariant, status: u8, mode: Mode) -> bool
    ensures { result ≡ holds_during spec.now inv.now status mode.0 }
{
    holds_range(
        inv.least,
        inv.greatest,
        during(spec.kind_of_app(inv.app), status, mode, inv.variable),
    )
}

fn holds_off(inv: &Invariant) -> bool
    ensures { result ≡ holds_off inv.now }
{
    holds_range(inv.least, inv.greatest, (0, 0))
}

// Returns `true` if the interval from `low` to `high` contains a range.
fn holds_range(low: i64, high: i64, range: (i64, i64)) -> bool
    ensures { result ≡ holds_range low high range }
{
    low <= range.0 && range.1 <= high
}

// Returns the refusal for the first precondition that may be broken as its configuration begins to run (A12), or
// `None` if no precondition may be broken.
pub(crate) fn refuse_precondition(spec: &Spec) -> Option<Shown>
    ensures { result ≡ precondition_refusal spec.now }
{
    for k in 0..spec.preconditions.items().len() as u32 {
        let shown = refuse_precondition_at(spec, k);
        if shown.is_some() {
            return shown;
        }
    }
    None
}

fn refuse_precondition_at(spec: &Spec, k: u32) -> Option<Shown>
    ensures { result ≡ precondition_refusal_at spec.now k }
{
    match spec.preconditions.items().get(k as usize) {
        Some(pre) => refuse_precondition_of(spec, k, pre),
        None => None,
    }
}

fn refuse_precondition_of(spec: &Spec, k: u32, pre: &Precondition) -> Option<Shown>
    ensures { result ≡ precondition_refusal_of spec.now k pre.now }
{
    if breaks_entering(spec, pre) {
        Some(Shown::at(12, pre.conf.0, Other::Item(k)))
    } else {
        None
    }
}

/// Returns `true` if a precondition may be broken as its configuration is entered.
pub fn breaks_entering(spec: &Spec, pre: &Precondition) -> bool
    ensures { result ≡ breaks_entering spec.now pre.now }
{
    match spec.place_of(pre.conf, pre.app) {
        Some(place) => {
            let kind = spec.kind_of_app(pre.app);
            !holds_range(
                pre.least,
                pre.greatest,
                after_init(kind, place.mode, pre.variable),
            )
        }
        None => !holds_range(pre.least, pre.greatest, (0, 0)),
    }
}
