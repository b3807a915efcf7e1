//! The laws of the family of fault scripts. Each function states a law by its contract.

ghost use Rattle.fault_family.specs.Laws.{FamiliesAreOrdered, FamiliesHaveMembers, MembersFit};
ghost use Rattle.fault_family.specs.Rests.{RestsMayBeLonger};
ghost use Rattle.fault_family.specs.Shifts.{LaterScriptsFlyTheSame, LaterScriptsShowTheSame};
ghost use Rattle.fault_family.specs.Standing.{ListedStepsStand};

/// States that the family for a number of faults contains exactly the lists of this number of faults in which each
/// fault may follow the preceding faults and whose script keeps the failure assumption.
pub fn families_have_members()
    ensures { FamiliesHaveMembers }
{}

/// States that the members of the family of an accepted specification are in order: by their first fault, then by
/// their second, then by their third. Therefore no member occurs twice.
pub fn families_are_ordered()
    ensures { FamiliesAreOrdered }
{}

/// States that the script of each member with at most three faults fits the specification.
pub fn members_fit()
    ensures { MembersFit }
{}

/// States that the rows and reports of a flight depend on a halt's step only by whether it comes before the mark.
/// Therefore the halts before all stores and after the mark, which are in the family, represent all other halts.
pub fn listed_steps_stand()
    ensures { ListedStepsStand }
{}

/// States that a script in which everything comes some frames later has the same environments and commits, later by
/// that number of frames. The later script keeps the failure assumption if the original script does.
pub fn later_scripts_show_the_same()
    ensures { LaterScriptsShowTheSame }
{}

/// States that for an accepted specification, a script in which everything comes some frames later has the same
/// reconfigurations, later by that number of frames. Its rows have the same acts and modes. Worlds and areas may
/// differ.
pub fn later_scripts_fly_the_same()
    ensures { LaterScriptsFlyTheSame }
{}

/// States that the length of a rest does not matter. Suppose that a flight is at rest, and that in another script
/// everything from then on comes some frames later. The flight of the other script is the same up to the rest.
/// Afterwards it has the same reconfigurations, later by that number of frames.
pub fn rests_may_be_longer()
    ensures { RestsMayBeLonger }
{}
