//! Laws of the environments of a script over time. The contract of each function is a law.

ghost use Rattle.fault_script.specs.Laws.{EnvironmentsShow, HaltsShow, LaterIsUnseen, LossesShow, TooManyDownShowsAHalt, UpAfterEachHalt};

/// States that in a script that fits, a processor that halts in a frame is down in the environment of the next frame.
pub fn halts_show()
    ensures { HaltsShow }
{}

/// States that in a script that fits, a processor that does not commit a frame is down in the environment of that
/// frame or of the next one.
pub fn losses_show()
    ensures { LossesShow }
{}

/// States that a processor is up in a frame if and only if it has restarted, up to that frame, after each of its
/// halts in earlier frames.
pub fn up_after_each_halt()
    ensures { UpAfterEachHalt }
{}

/// States that in a script that fits, a bit of an environment is set if and only if its processor exists and is up.
/// Each factor has one of its values, and the entries past the last factor are zero.
pub fn environments_show()
    ensures { EnvironmentsShow }
{}

/// States that the environment of a frame and the processors that commit it do not depend on the script's entries for
/// later frames.
pub fn later_is_unseen()
    ensures { LaterIsUnseen }
{}

/// States that if [`within`](crate::within) returns a frame after which too many processors are down, a processor
/// halts in that frame. If the script has no restarts, this frame is the frame of the script's halt at index
/// `Spec::halts`.
pub fn too_many_down_shows_a_halt()
    ensures { TooManyDownShowsAHalt }
{}
