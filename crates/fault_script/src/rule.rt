//! The numbers of the rules that apply to scripts alone. A fault contains the number of its rule, so the numbers
//! never change.

/// `scram` is neither 1 nor 2.
pub const UNKNOWN_VERSION: u8 = 9;

/// No factor, no value of the factor or no processor has this name.
pub const UNKNOWN_NAME: u8 = 10;

/// A change or a halt is not after the preceding one, or a processor halts again in version 1.
pub const OUT_OF_ORDER: u8 = 11;

/// The document has more than 2,097,152 bytes.
pub const TOO_LONG: u8 = 12;

/// A restart is not after the preceding one, is its processor's second, or is not two frames or more after a halt of
/// its processor.
pub const WRONG_RESTART: u8 = 13;

/// A processor halts a third time, or a second time before its restart.
pub const WRONG_HALT: u8 = 14;
