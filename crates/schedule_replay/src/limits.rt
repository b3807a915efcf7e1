//! The limits of a schedule's text.

/// The maximum length of a file that holds a schedule, in bytes.
pub const MAX_SCHEDULE_BYTES: usize = 33_554_432;

/// The maximum length of a line of a schedule, in bytes, excluding the line feed.
pub const MAX_EVENT_BYTES: usize = 64;
