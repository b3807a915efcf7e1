//! The rules, configurations and bounds that are idle, since no choice uses them.

ghost use Rattle.std.specs.Prelude.{◌≡◌, ◌<◌, IfOk, length};
ghost use Rattle.scram_types.specs.Lookups.{conf_id};
ghost use Rattle.scram_types.specs.Searches.{any_below};
ghost use Rattle.spec_forms.specs.choice_forms.Tables.{HasShares};
ghost use Rattle.coverage_check.specs.Timing.{asked_bounds};
ghost use Rattle.cube_cover.specs.Shares.{AreShares, IsShare, is_ruled_by};
ghost use Rattle.spec_forms.specs.Bounds.{AreAskedBounds};
ghost use Rattle.idle_parts.specs.Chosen.{AreChoicesOf};
ghost use Rattle.idle_parts.specs.Choices.{is_bound_idle, is_conf_idle, is_first_from, is_rule_idle, is_target_of_other};

use coverage_check::is_asked;
use cube_cover::Share;
use scram_types::{Bound, ConfId, List, NoMemory, Spec};
use spec_forms::choice_forms::find_shares;
use spec_forms::find_asked;
use std::alloc::Global;

// The possible choices from each configuration. For each configuration, `shares` has each rule's share of the
// environments in scope, and `sets` has the set of the targets to which acceptance requires a bound.
pub(crate) struct Chosen {
    pub(crate) shares: Vec<List<Share>>,
    pub(crate) sets: [u16; 12],
}

// A derived drop is laid out in the proof of each function that drops the value, and this one is a call.
impl Drop for Chosen {
    fn drop(self) {
        let Chosen { shares: _, sets: _ } = self;
    }
}

// Returns the possible choices from each configuration.
pub(crate) fn find_chosen(alloc: Global, spec: &Spec) -> Result<Chosen, NoMemory>
    ensures { IfOk result (λ chosen. AreChoicesOf spec.now chosen) }
{
    let sets = find_asked(alloc, spec)?;
    let shares = find_shares(alloc, spec)?;
    Ok(Chosen { shares, sets })
}

// Returns `true` if there is no configuration and no environment in scope for which rule `k` is the first that fits.
// `shares` has the shares of each configuration.
pub(crate) fn is_rule_idle(spec: &Spec, shares: &[List<Share>], k: u8) -> bool
    requires shares { HasShares spec.now shares.now }
    requires rule { k < length spec.now.rules }
    ensures { result ≡ is_rule_idle spec.now k }
{
    !is_rule_first(spec, shares, k)
}

fn is_rule_first(spec: &Spec, shares: &[List<Share>], k: u8) -> bool
    requires shares { HasShares spec.now shares.now }
    requires rule { k < length spec.now.rules }
    ensures { result ≡ any_below (is_first_from spec.now k) (length spec.now.confs) }
{
    for i in 0..spec.count_confs() {
        if is_first_from(spec, shares[usize::from(i)].items(), k, i) {
            return true;
        }
    }
    false
}

// Returns `true` if rule `k` is the first that fits configuration `i` in some environment in scope. `shares` are the
// shares of configuration `i`.
fn is_first_from(spec: &Spec, shares: &[Share], k: u8, i: u8) -> bool
    requires shares { AreShares spec.now (conf_id i) shares.now }
    requires rule { k < length spec.now.rules }
    ensures { result ≡ is_first_from spec.now k i }
{
    has_environment(spec, &shares[usize::from(k)], k, i)
}

// Returns `true` if rule `k` is the first that fits configuration `i` in some environment in scope. `share` is the
// rule's share of the environments in scope.
fn has_environment(spec: &Spec, share: &Share, k: u8, i: u8) -> bool
    requires { IsShare spec.now (is_ruled_by spec.now (conf_id i) k) share.now }
    ensures { result ≡ is_first_from spec.now k i }
{
    // From the use of a field, the prover knows that the specification satisfies its invariant.
    let _ = &spec.rules;
    share.first.is_some()
}

// Returns `true` if configuration `c` is neither the start nor a possible target of another configuration. `sets`
// has, for each configuration, the set of the targets to which acceptance requires a bound.
pub(crate) fn is_conf_idle(spec: &Spec, sets: &[u16; 12], c: u8) -> bool
    requires sets { AreAskedBounds spec.now sets.now }
    requires conf { c < length spec.now.confs }
    ensures { result ≡ is_conf_idle spec.now c }
{
    spec.start.0 != c && !is_target_of_others(spec, sets, c)
}

fn is_target_of_others(spec: &Spec, sets: &[u16; 12], c: u8) -> bool
    requires sets { AreAskedBounds spec.now sets.now }
    requires conf { c < length spec.now.confs }
    ensures { result ≡ any_below (is_target_of_other spec.now c) (length spec.now.confs) }
{
    for i in 0..spec.count_confs() {
        if is_target_of_other(spec, sets[usize::from(i)], c, i) {
            return true;
        }
    }
    false
}

// Returns `true` if `i` and `c` differ, and configuration `c` is a possible target of configuration `i`. `set` has
// the targets to which acceptance requires a bound from configuration `i`.
fn is_target_of_other(spec: &Spec, set: u16, c: u8, i: u8) -> bool
    requires set { set ≡ asked_bounds spec.now (conf_id i) }
    requires conf { c < length spec.now.confs }
    requires few { c < 12 }
    ensures { result ≡ is_target_of_other spec.now c i }
{
    i != c && is_asked(spec, set, ConfId(i), ConfId(c))
}

// Returns `true` if acceptance does not require a bound from the source of `bound` to its target. `set` has the
// targets to which acceptance requires a bound from that source.
pub(crate) fn is_bound_idle(spec: &Spec, set: u16, bound: &Bound) -> bool
    requires set { set ≡ asked_bounds spec.now bound.now.from }
    requires to { bound.now.to.0 < length spec.now.confs }
    requires few { bound.now.to.0 < 12 }
    ensures { result ≡ is_bound_idle spec.now bound.now }
{
    !is_asked(spec, set, bound.from, bound.to)
}
