//! The laws of the missions that the command flies. The contract of each function is a law.

ghost use Rattle.scram_cli.specs.Laws.{MissionsAreAnswered, PrintedMissionsAreRead};

/// States that, for every specification and every script that fits it, the text that `run` prints for their mission
/// is read back as the mission's rows and reports. No trace is too long to be read.
pub fn printed_missions_are_read()
    ensures { PrintedMissionsAreRead }
{}

/// States that `run` is complete. Suppose that the files are steady and hold a mission, that the sink has room, and
/// that the clauses `answer` and `complete` of `scram` hold for the words. Then the status is 0 and the trace of the
/// one-thread flight was written, or the allocator was out of memory.
pub fn missions_are_answered()
    ensures { MissionsAreAnswered }
{}
