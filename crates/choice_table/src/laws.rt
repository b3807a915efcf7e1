//! Laws about the definitions in this crate's contracts. The contract of each function is a law.

ghost use Rattle.choice_table.specs.Laws.{RunsWherePlacesAreUp, SetsAreUpByMembers};

/// States that a configuration can run if and only if each processor on which it places an application is up.
pub fn runs_where_places_are_up()
    ensures { RunsWherePlacesAreUp }
{}

/// States that `all_up` holds for a set of processors if and only if each processor in the set is up.
pub fn sets_are_up_by_members()
    ensures { SetsAreUpByMembers }
{}
