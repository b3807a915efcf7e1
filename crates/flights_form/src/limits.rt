//! The limit of a file of scripts.

/// The maximum length of a file of scripts, in bytes.
pub const MAX_SCRIPTS_BYTES: usize = 33_554_432;
