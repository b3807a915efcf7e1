//! The kinds of application: their numbers, their modes and the contents of the words of their areas.
//!
//! Word 0 of every area is the status: 0 off, 1 running, 2 halting, 3 preparing, 4 initialising. Word 6 counts the
//! frames in which the application ran, 0 to 1,000,000.

/// The words that the areas of all kinds have in common.
pub mod every_kind {
    /// The status: 0 off, 1 run, 2 halt, 3 prepare, 4 init.
    pub const STATUS: usize = 0;
    /// The number of frames in which the application ran, 0 to [`MOST_TICKS`], where the count stops.
    pub const TICKS: usize = 6;
    /// The maximum of the count of frames.
    pub const MOST_TICKS: u32 = 1_000_000;
}

/// The autopilot: it commands pitch and roll to reach a target altitude and a target heading.
pub mod autopilot {
    /// The kind's number.
    pub const KIND: u8 = 0;
    /// The mode in which the targets are the mission's goal.
    pub const NAVIGATE: u8 = 1;
    /// The mode in which the targets stay and the wings are kept level.
    pub const HOLD: u8 = 2;
    /// The pitch command, in tenths of a degree: -100 to 100 in `navigate`, -80 to 80 in `hold`.
    pub const PITCH: usize = 1;
    /// The roll command, in tenths of a degree: -150 to 150 in `navigate`, 0 in `hold`.
    pub const ROLL: usize = 2;
    /// The target altitude, in feet: 0 to 40,000.
    pub const TARGET_ALT: usize = 3;
    /// The target heading, in tenths of a degree: 0 to 3,599.
    pub const TARGET_HEADING: usize = 4;
    /// The sum of the altitude errors, in feet: -4,000 to 4,000.
    pub const INTEGRAL: usize = 5;
}

/// The flight control: it moves the surfaces as the autopilot commands.
pub mod flight_control {
    /// The kind's number.
    pub const KIND: u8 = 1;
    /// The mode in which the surfaces move toward the command by a limited step each frame.
    pub const AUGMENTED: u8 = 1;
    /// The mode in which the surfaces are set to twice the command.
    pub const DIRECT: u8 = 2;
    /// The elevator, in tenths of a degree: -100 to 100 in `augmented`, -200 to 200 in `direct`.
    pub const ELEVATOR: usize = 1;
    /// The aileron, in tenths of a degree: -150 to 150 in `augmented`, -300 to 300 in `direct`.
    pub const AILERON: usize = 2;
    /// The pitch that was commanded, in tenths of a degree: -100 to 100.
    pub const COMMAND_PITCH: usize = 3;
    /// The roll that was commanded, in tenths of a degree: -150 to 150.
    pub const COMMAND_ROLL: usize = 4;
}

/// The power monitor: it tracks the battery's charge.
pub mod power_monitor {
    /// The kind's number.
    pub const KIND: u8 = 2;
    /// The mode in which the loads take 100 charge units a frame.
    pub const NORMAL: u8 = 1;
    /// The mode in which the loads take 60 charge units a frame.
    pub const SAVER: u8 = 2;
    /// The mode in which the loads take 20 charge units a frame.
    pub const ESSENTIAL: u8 = 3;
    /// The battery's charge, in charge units: 0 to 10,000.
    pub const CHARGE: usize = 1;
    /// The charge units that the alternators supply in a frame: 0 to 120.
    pub const SUPPLY: usize = 2;
    /// The charge units that the loads take in a frame: 0 to 100 in `normal`, 0 to 60 in `saver`, 0 to 20 in
    /// `essential`.
    pub const DEMAND: usize = 3;
    /// 1 if loads are to be shed, else 0.
    pub const SHED: usize = 4;
}

/// The navigator: it measures how far the aircraft is from its goal.
pub mod navigator {
    /// The kind's number.
    pub const KIND: u8 = 3;
    /// The mode that measures heading and altitude.
    pub const ROUTE: u8 = 1;
    /// The mode that measures the heading alone.
    pub const COARSE: u8 = 2;
    /// The turn to the goal's heading, in tenths of a degree: -1,800 to 1,799.
    pub const BEARING_ERROR: usize = 1;
    /// The climb to the goal's altitude, in feet: -5,000 to 5,000 in `route`, 0 in `coarse`.
    pub const CLIMB_LEFT: usize = 2;
    /// 1 if the aircraft is on course, else 0.
    pub const ON_COURSE: usize = 3;
}

/// The data link: it sends a message for each of the kinds 0 to 3 whose status is 1.
pub mod data_link {
    /// The kind's number.
    pub const KIND: u8 = 4;
    /// The mode in which at most 4 messages are sent in a frame.
    pub const FAST: u8 = 1;
    /// The mode in which at most 1 message is sent in a frame.
    pub const SLOW: u8 = 2;
    /// The number of waiting messages: 0 to 64.
    pub const QUEUED: usize = 1;
    /// The number of messages sent so far: 0 to 1,000,000, where the count stops.
    pub const SENT: usize = 2;
    /// The maximum number of messages sent in a frame: 0 to 4 in `fast`, 0 to 1 in `slow`.
    pub const RATE: usize = 3;
    /// The number of messages dropped so far: 0 to 1,000,000, where the count stops.
    pub const DROPPED: usize = 4;
}

/// The task: an application that is placed, started, stopped and timed, and whose contents do not matter to the
/// reconfiguration.
pub mod task {
    /// The kind's number.
    pub const KIND: u8 = 5;
    /// The mode in which the task does all its work.
    pub const FULL: u8 = 1;
    /// The mode in which the task does less work.
    pub const REDUCED: u8 = 2;
    /// The mode in which the task does the least work.
    pub const MINIMAL: u8 = 3;
}
