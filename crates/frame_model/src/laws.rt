//! Laws on the definitions that the contracts of this crate use. The contract of each function is a law.

ghost use Rattle.frame_model.specs.Laws.{AreasAreKept, BeginningsAreRead, HaltsLastWithoutRestarts, ReadsReconfigurations, ReadsRowByRow, RetargetChoosesAnew, SettlesWithItsPhases, LaterIsUnseenInRows};

/// States that after each frame, the area of each application equals its slot in the image of its keeper, or is zeros
/// if it has no keeper.
pub fn areas_are_kept()
    ensures { AreasAreKept }
{}

/// States that the row of a frame does not depend on what the script lists for later frames.
pub fn later_is_unseen_in_rows()
    ensures { LaterIsUnseenInRows }
{
    fault_script::laws::later_is_unseen();
}

/// States that in a script without restarts, a processor is up in a frame if and only if it has not halted in an
/// earlier frame.
pub fn halts_last_without_restarts()
    ensures { HaltsLastWithoutRestarts }
{}

/// States that under the policy `Retarget`, the target is chosen anew from the source in each frame until the target
/// has run.
pub fn retarget_chooses_anew()
    ensures { RetargetChoosesAnew }
{}

/// States that a reconfiguration is settled if and only if its phase is the last one, in which the target is to run.
pub fn settles_with_its_phases()
    ensures { SettlesWithItsPhases }
{}

/// States that a reconfiguration begins in the first row that does not run the current configuration. It ends in the
/// first later row that runs some configuration. If that row runs several, the one with the smallest number counts.
pub fn reads_reconfigurations()
    ensures { ReadsReconfigurations }
{}

/// States that the reading and the ended reconfigurations after a further row follow from those after the preceding
/// rows.
pub fn reads_row_by_row()
    ensures { ReadsRowByRow }
{}

/// States that the later rows of a flight do not change the sources and the first frames of the reconfigurations that
/// began in its first rows.
pub fn beginnings_are_read()
    ensures { BeginningsAreRead }
{}
