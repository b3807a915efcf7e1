//! Laws of the places at which conditions do not hold. Each function states a law by its contract.

ghost use Rattle.condition_breaks.specs.Complete.{NoneIsLeftOut};
ghost use Rattle.condition_breaks.specs.Laws.{EachIsBroken, FirstIsShown, NeededIsLeast, RefusalIsFirst};

/// States that the refusal of each condition equals the refusal for the first place in the condition's list. The list
/// is empty if and only if the condition holds.
pub fn first_is_shown()
    ensures { FirstIsShown }
{}

/// States that if a specification is not accepted, the refusal equals the refusal for the first place in a list. The
/// list is that of the condition that the refusal names.
pub fn refusal_is_first()
    ensures { RefusalIsFirst }
{}

/// States that each place in a condition's list exists in the specification, and that the condition does not hold at
/// the place.
pub fn each_is_broken()
    ensures { EachIsBroken }
{}

/// States that if a condition does not hold somewhere, the condition's list contains a place that represents this
/// failure. One place of A3 represents all earlier configurations that are the same. One place of A5, A6, A7 or A13
/// represents all environments in which the condition does not hold. One place of A11 represents all configurations
/// from which the invariant may be broken.
pub fn none_is_left_out()
    ensures { NoneIsLeftOut }
{}

/// States that the interval in the place of an invariant is the smallest that contains all ranges that the invariant
/// has to contain.
pub fn needed_is_least()
    ensures { NeededIsLeast }
{}
