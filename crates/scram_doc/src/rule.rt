//! The numbers of the rules that hold for every document. They never change, since faults contain them.

/// The bytes are not a JSON text.
pub const NO_JSON_TEXT: u8 = 1;

/// The value is not an object.
pub const NO_OBJECT: u8 = 2;

/// A member is missing.
pub const MISSING_MEMBER: u8 = 3;

/// The object has a member besides those that it must have.
pub const FURTHER_MEMBER: u8 = 4;

/// The value is not a list.
pub const NO_LIST: u8 = 5;

/// A list is shorter or longer than allowed.
pub const WRONG_LENGTH: u8 = 6;

/// The value is not a string.
pub const NO_TEXT: u8 = 7;

/// The value is not a whole number within its range.
pub const NO_NUMBER_IN_RANGE: u8 = 8;
