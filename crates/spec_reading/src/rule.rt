//! The numbers of the rules of specification documents. They follow the numbers of the rules for all documents. A
//! fault contains the number of its rule, so the numbers never change.

/// The version is not 1, 2 or 3.
pub const UNKNOWN_VERSION: u8 = 9;

/// A text that must be a name is not a name.
pub const NO_NAME: u8 = 10;

/// A name occurs twice in its list.
pub const NAME_TWICE: u8 = 11;

/// No kind of application has this name.
pub const UNKNOWN_KIND: u8 = 12;

/// The kind of application has no mode of this name.
pub const UNKNOWN_MODE: u8 = 13;

/// A mode occurs twice in one list.
pub const MODE_TWICE: u8 = 14;

/// No processor has this name.
pub const UNKNOWN_PROCESSOR: u8 = 15;

/// No application has this name.
pub const UNKNOWN_APPLICATION: u8 = 16;

/// No configuration has this name.
pub const UNKNOWN_CONFIGURATION: u8 = 17;

/// No factor has this name, or the factor has no value of this name.
pub const UNKNOWN_FACTOR_OR_VALUE: u8 = 18;

/// The application's kind has no variable of this name.
pub const UNKNOWN_VARIABLE: u8 = 19;

/// The same application, processor, configuration, factor or pair of configurations occurs twice in one list, or an
/// application or a processor is in two lists of a demand that exclude each other.
pub const TWICE_IN_LIST: u8 = 20;

/// The needs of the applications have a cycle.
pub const CYCLE_OF_NEEDS: u8 = 21;

/// The application does not list the mode.
pub const MODE_NOT_LISTED: u8 = 22;

/// The minimum of an interval is greater than its maximum.
pub const EMPTY_INTERVAL: u8 = 23;

/// The document has more than 1,048,576 bytes.
pub const TOO_LONG: u8 = 24;

/// The policy is neither `retarget` nor `settle`.
pub const UNKNOWN_POLICY: u8 = 25;
