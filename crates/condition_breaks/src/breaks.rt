//! The places at which conditions of acceptance do not hold.

use coverage_check::choosing::Requirement;
use flight_facts::extremes::Extremes;
use scram_types::{AppId, ConfId, Env, ProcId};

/// A place at which a condition of acceptance does not hold. The places of one condition are in the lexicographic
/// order of the numbers in their fields, from left to right.
#[derive(Clone, Copy)]
pub enum Break {
    /// In a configuration, an application is on and an application that it needs is off.
    NeedOff(ConfId, AppId, AppId),
    /// More than `MAX_ENVIRONMENTS` environments are in scope.
    ManyStates,
    /// A configuration has no application on.
    NothingOn(ConfId),
    /// A configuration is the same as an earlier configuration. The second field is the first such configuration.
    SameAgain(ConfId, ConfId),
    /// A configuration loads a processor beyond its capacity.
    Overloaded(ConfId, ProcId),
    /// A configuration does not meet a requirement in an environment, which is the first such environment in scope.
    Unmet(Requirement, ConfId, Env),
    /// The table leaves the start configuration in the opening environment.
    StartLeft,
    /// A bound from the first configuration to the second is required, and no sufficient bound is given.
    BoundLacking(ConfId, ConfId),
    /// The window is not longer than the greatest bound.
    WindowShort,
    /// An invariant does not contain a range that it has to contain.
    Unheld(Unheld),
    /// The precondition of this number can fail when its configuration is entered.
    PreconditionMissed(u32),
    /// From a configuration, the table misses the demand of this number in an environment, which is the first such
    /// environment in scope.
    DemandMissed(ConfId, u32, Env),
}

/// A way from a configuration to one of its possible targets, or to itself.
#[derive(Clone, Copy)]
pub struct Way {
    pub from: ConfId,
    pub to: ConfId,
}

/// A place of A11: an invariant that does not contain every range that it has to contain. `invariant` is the number
/// of the invariant, and `way` is the first way with such a range that is not contained. `needed` is the smallest
/// interval that contains all ranges that the invariant has to contain.
#[derive(Clone, Copy)]
pub struct Unheld {
    pub invariant: u32,
    pub way: Way,
    pub needed: Extremes,
}
