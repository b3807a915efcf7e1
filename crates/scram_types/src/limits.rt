//! The limits on a specification, a script and their files.

/// The maximum number of processors of a specification; the minimum is 1.
pub const MAX_PROCESSORS: usize = 8;
/// The maximum number of applications of a specification; the minimum is 1.
pub const MAX_APPLICATIONS: usize = 8;
/// The maximum number of modes that an application lists; the minimum is 1.
pub const MAX_MODES: usize = 3;
/// The maximum number of configurations of a specification; the minimum is 1.
pub const MAX_CONFIGURATIONS: usize = 12;
/// The maximum number of environment factors of a specification.
pub const MAX_FACTORS: usize = 6;
/// The maximum number of values of a factor; the minimum is [`MIN_VALUES`].
pub const MAX_VALUES: usize = 4;
/// The minimum number of values of a factor.
pub const MIN_VALUES: usize = 2;
/// The maximum number of rules of the choice table.
pub const MAX_RULES: usize = 64;
/// The maximum number of bounds on reconfigurations: one for each pair of configurations.
pub const MAX_BOUNDS: usize = 144;
/// The maximum number of invariants of a specification, and the maximum number of its preconditions.
pub const MAX_INTERVALS: usize = 64;
/// The maximum number of demands of a specification.
pub const MAX_DEMANDS: usize = 64;
/// The maximum capacity of a processor and the maximum load of a mode, in load units.
pub const MAX_LOAD: u32 = 1_000_000;
/// The maximum length of a halt, prepare or init phase of a mode, in frames; the minimum is 1.
pub const MAX_PHASE: u8 = 16;
/// The maximum bound on a reconfiguration, in frames; the minimum is 1.
pub const MAX_BOUND: u32 = 1_000;
/// The maximum number of processors that the failure assumption can allow to be down at the same time.
pub const MAX_ASSUMED_HALTS: u8 = 8;
/// The maximum number of changes of the environment, after the first change, that the failure assumption can allow in
/// a window.
pub const MAX_ASSUMED_CHANGES: u8 = 16;
/// The maximum length of the window of the failure assumption, in frames; the minimum is 1.
pub const MAX_WINDOW: u32 = 1_000;
/// The maximum absolute value of an end of an invariant's or a precondition's interval.
pub const MAX_INTERVAL_END: i64 = 1_000_000_000;
/// The maximum altitude of a goal, in feet; the minimum is 0.
pub const MAX_ALTITUDE: i64 = 40_000;
/// The maximum heading of a goal, in tenths of a degree; the minimum is 0.
pub const MAX_HEADING: i64 = 3_599;
/// The number of kinds of applications. The kinds are numbered from 0 to 5.
pub const KINDS: u8 = 6;
/// The maximum number of frames of a script.
pub const MAX_FRAMES: u32 = 20_000;
/// The maximum number of changes that a script lists.
pub const MAX_CHANGES: usize = 20_000;
/// The maximum number of environments in scope of a specification.
pub const MAX_ENVIRONMENTS: u32 = 16_384;
/// The maximum length of a line of a trace, in bytes, excluding the line feed.
pub const MAX_LINE_BYTES: usize = 512;
/// The maximum size of a specification file, in bytes.
pub const MAX_SPECIFICATION_BYTES: usize = 1_048_576;
/// The maximum size of a script file, in bytes.
pub const MAX_SCRIPT_BYTES: usize = 2_097_152;
/// The maximum size of a trace file, in bytes.
pub const MAX_TRACE_BYTES: usize = 33_554_432;
