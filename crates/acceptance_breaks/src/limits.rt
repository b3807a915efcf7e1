//! The intervals that invariants and preconditions specify, and the intervals that they need.

ghost use Rattle.std.specs.Prelude.{◌≡◌};
ghost use Rattle.acceptance_breaks.specs.Limits.{invariant_limits, precondition_limits};

use condition_breaks::Unheld;
use condition_breaks::ranges::{interval, range_entering};
use flight_facts::extremes::Extremes;
use scram_types::{AppId, Invariant, Precondition, Spec};

/// The interval that an invariant or a precondition specifies for a variable of an application, and the interval that
/// it needs. `item` is the number of the invariant or precondition.
#[derive(Clone, Copy)]
pub struct Limits {
    pub item: u32,
    pub app: AppId,
    pub variable: u8,
    pub given: Extremes,
    pub needed: Extremes,
}

// Returns the number, the application and the variable of invariant `inv`, the interval that it specifies, and the
// smallest interval that suffices. The number and the smallest interval are taken from `found`.
pub(crate) fn invariant_limits(found: &Unheld, inv: &Invariant) -> Limits
    ensures { result ≡ invariant_limits found.now inv.now }
{
    Limits {
        item: found.invariant,
        app: inv.app,
        variable: inv.variable,
        given: interval(inv.least, inv.greatest),
        needed: found.needed,
    }
}

// Returns the number `k`, the application and the variable of precondition `k`, the interval that the precondition
// specifies, and the range that the interval must contain.
pub(crate) fn precondition_limits(spec: &Spec, k: u32, pre: &Precondition) -> Limits
    ensures { result ≡ precondition_limits spec.now k pre.now }
{
    Limits {
        item: k,
        app: pre.app,
        variable: pre.variable,
        given: interval(pre.least, pre.greatest),
        needed: range_entering(spec, pre, spec.place_of(pre.conf, pre.app)),
    }
}
