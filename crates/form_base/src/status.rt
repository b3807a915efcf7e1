//! The statuses of the command.

/// The status with which the command ends. Its code is one of the constants below.
#[derive(Clone, Copy)]
pub struct Status {
    pub code: u8,
}

/// The request was carried out, and its output was printed.
pub const ANSWERED: u8 = 0;

/// The command's words match no form of the command.
pub const BROKEN_USAGE: u8 = 2;

/// A file was not read.
pub const UNREAD_FILE: u8 = 3;

/// None of the output was written, or only a prefix of it.
pub const UNWRITTEN_OUTPUT: u8 = 4;

/// The specification's file breaks a rule of specifications.
pub const BROKEN_SPECIFICATION: u8 = 5;

/// The specification is not accepted.
pub const NOT_ACCEPTED: u8 = 6;

/// The script's file breaks a rule of scripts.
pub const BROKEN_SCRIPT: u8 = 7;

/// The script violates the failure assumption.
pub const UNASSUMED_SCRIPT: u8 = 8;

/// Memory ran out.
pub const OUT_OF_MEMORY: u8 = 9;

/// The trace breaks a property of reconfigurations.
pub const BROKEN_PROPERTY: u8 = 10;

/// The trace's file breaks a rule of traces.
pub const BROKEN_TRACE: u8 = 11;

/// The schedule's file breaks a rule of schedules, or the schedule does not fly to the end.
pub const BROKEN_SCHEDULE: u8 = 12;

/// A word that must be the name of a part of the specification is not such a name.
pub const UNKNOWN_NAME: u8 = 13;
