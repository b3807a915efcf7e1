//! The numbers of the rules of a schedule. A fault shows the number of the rule that is broken. Therefore the numbers
//! never change.

/// The line lacks its line feed, has a byte that is not printable, or has more than `MAX_EVENT_BYTES` bytes.
pub const BROKEN_LINE: u8 = 1;

/// The first word of the line names no kind of event.
pub const UNKNOWN_WORD: u8 = 2;

/// The line has an empty word, or the wrong number of words for its kind of event.
pub const NO_FORM: u8 = 3;

/// A processor is unknown, or a number is out of range or not spelled as it is printed.
pub const UNKNOWN_EVENT: u8 = 4;

/// The text of the schedule has more than `MAX_SCHEDULE_BYTES` bytes.
pub const TOO_LONG: u8 = 5;
