//! The numbers of the rules of a trace. Faults show these numbers, so the numbers never change.

/// The line lacks its line feed, has a byte that is not printable, or is too long.
pub const BROKEN_LINE: u8 = 1;

/// The line's first word is not allowed at this point of the trace.
pub const OUT_OF_PLACE: u8 = 2;

/// The line's words do not match any form.
pub const NO_FORM: u8 = 3;

/// A name is unknown in its place in the line.
pub const UNKNOWN_NAME: u8 = 4;

/// A number is not spelled as it is printed, or is out of its range.
pub const WRONG_NUMBER: u8 = 5;

/// The line's frame or application is not the expected one.
pub const NOT_NEXT: u8 = 6;

/// The frame of a phase is not below the phase's length, the length is above 16, or processors are out of order.
pub const OUT_OF_ORDER: u8 = 7;

/// A length, a bound or a count is wrong, or a reconfiguration begins after its end.
pub const WRONG_COUNT: u8 = 8;

/// The end line is missing, a line follows it, or the trace is too long.
pub const WRONG_END: u8 = 9;
