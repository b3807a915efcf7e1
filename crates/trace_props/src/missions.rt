//! Theorems on missions. Each function here states a theorem by its contract and does nothing. A mission is an
//! accepted specification and a script that fits the specification and keeps to its failure assumption.

ghost use Rattle.trace_props.specs.Missions.{FurtherChangesAreFew, HaltingEndsInTime, PhasesArePastInTime, ReconfigurationsAreAssured, TargetsAreChosen};
ghost use Rattle.trace_props.specs.Calms.{CalmSettles};
ghost use Rattle.trace_props.specs.Known.{IsKnown};

/// States that SP1 to SP6 hold for a mission's rows and reports, with halts and restarts in any frame, with failures
/// chained during a reconfiguration, and under both policies. Each reconfiguration that is read off the rows is
/// reported. It ends within the given bound, in a target that was chosen in an environment seen during the
/// reconfiguration. It keeps its invariants throughout and meets its target's preconditions in the row before its
/// end. Its cause is a change of the environment, unless it begins in the last row. No target is claimed for a
/// reconfiguration that the end of the script cuts off. Once the environment has held for the greatest bound, a
/// configuration that meets the demands runs in each row in which no application is lost.
pub fn reconfigurations_are_assured()
    ensures { ReconfigurationsAreAssured }
{
    know();
}

/// States that the target of a reconfiguration can run in each frame in which the reconfiguration is under way. The
/// target was chosen from the reconfiguration's source in an environment seen since the first moving frame. Under
/// `Retarget` the target was chosen in the environment of the frame.
pub fn targets_are_chosen()
    ensures { TargetsAreChosen }
{
    know();
}

/// States that the halting phase ends in time after the first moving frame. The limit is the halting time of the
/// source, plus `slowest` frames for each further change of the environment.
pub fn halting_ends_in_time()
    ensures { HaltingEndsInTime }
{
    know();
}

/// States that each moving frame of a reconfiguration is no later than the frame in which the phases of the
/// reconfiguration are past.
pub fn phases_are_past_in_time()
    ensures { PhasesArePastInTime }
{
    know();
}

/// States that after the first moving frame of a reconfiguration, the environment changes at most as often as the
/// bounds allow.
pub fn further_changes_are_few()
    ensures { FurtherChangesAreFew }
{
    know();
}

/// States that no reconfiguration is under way once the environment has held for the greatest bound. In each row whose
/// environment has held for that number of frames, and in which no application is lost, a configuration runs that the
/// table chooses again in this environment. This holds under both policies, with halts and restarts.
pub fn calm_settles()
    ensures { CalmSettles }
{
    know();
}

/// States the facts from other crates on which the theorems on missions rest.
fn know()
    ensures { IsKnown }
{
    choice_table::laws::runs_where_places_are_up();
    dep_order::laws::phases_end_in_time();
    fault_script::laws::environments_show();
    fault_script::laws::losses_show();
    frame_model::laws::reads_row_by_row();
    app_model::laws::law_lies_during();
    app_model::laws::law_lies_after_init();
    app_model::laws::start_lies_after_init();
    app_model::laws::tables_narrow();
}
