//! The table of kinds: the names of a kind, its modes and the words of its area, and the ranges of the words.
#![tactic(auto, unfolding(crate::specs::Kinds::kind_variable))]

ghost use Rattle.std.specs.Prelude.{◌≡◌, ◌≤◌, IfSome, length, option_map};
ghost use Rattle.kind_table.specs.Kinds.{find_kind, kind_or_last, kind_read, kind_variable, range_in, variable_read};

use crate::kinds::every_kind::MOST_TICKS;
use crate::kinds::{autopilot, data_link, flight_control, navigator, power_monitor, task};
use scram_types::Range;

/// A word of a kind's area.
#[derive(Clone, Copy)]
pub struct Variable {
    /// The name of the word, or `None` if the kind does not use the word.
    pub name: Option<&'static str>,
    /// The ranges in modes 1, 2 and 3. Every other mode has the last range of the list.
    pub ranges: &'static [Range],
    /// The ranges in modes 1, 2 and 3 after the last frame of an init phase. Every other mode has the last range of
    /// the list.
    pub initialised: &'static [Range],
    /// Whether a halt brings the word to 0.
    pub moves: bool,
    /// The value that the word has when the application begins.
    pub start: i64,
}

/// A kind of application.
#[derive(Clone, Copy)]
pub struct Kind {
    /// The name of the kind.
    pub name: &'static str,
    /// The names of the modes, by number. Mode 0, off, has no name.
    pub modes: &'static [Option<&'static str>],
    /// The mode that has the widest range of each variable.
    pub widest: u8,
    /// The eight words of the kind's area.
    pub variables: &'static [Variable],
}

macro_rules! range {
    ($below:expr, $above:expr) => {
        Range {
            below: $below,
            above: $above,
        }
    };
}

macro_rules! variable {
    ($name:expr, $ranges:expr, $initialised:expr, $moves:expr, $start:expr) => {
        Variable {
            name: Some($name),
            ranges: $ranges,
            initialised: $initialised,
            moves: $moves,
            start: $start,
        }
    };
}

/// A variable that a halt brings to 0 and that begins with 0.
macro_rules! moving {
    ($name:expr, $ranges:expr, $initialised:expr) => {
        variable!($name, $ranges, $initialised, true, 0)
    };
}

/// A variable that a halt and an init phase do not change.
macro_rules! lasting {
    ($name:expr, $ranges:expr, $start:expr) => {
        variable!($name, $ranges, $ranges, false, $start)
    };
}

const ZERO: Range = range!(0, 0);

const STATUS: Variable = lasting!("status", &[range!(0, 4)], 4);

const TICKS: Variable = lasting!("ticks", &[range!(0, MOST_TICKS)], 0);

const UNUSED: Variable = Variable {
    name: None,
    ranges: &[ZERO],
    initialised: &[ZERO],
    moves: false,
    start: 0,
};

/// The names of the kinds. A function that needs only a name takes it from here and not from the whole record.
pub(crate) mod name_of {
    pub const AUTOPILOT: &str = "autopilot";

    pub const FLIGHT_CONTROL: &str = "flight_control";

    pub const POWER_MONITOR: &str = "power_monitor";

    pub const NAVIGATOR: &str = "navigator";

    pub const DATA_LINK: &str = "datalink";

    pub const TASK: &str = "task";
}

/// The record of kind `autopilot`.
pub const AUTOPILOT: Kind = Kind {
    name: name_of::AUTOPILOT,
    modes: &[None, Some("navigate"), Some("hold")],
    widest: autopilot::NAVIGATE,
    variables: &[
        STATUS,
        moving!("pitch", &[range!(100, 100), range!(80, 80)], &[ZERO]),
        moving!("roll", &[range!(150, 150), ZERO], &[ZERO]),
        lasting!("target_alt", &[range!(0, 40_000)], 5_000),
        lasting!("target_heading", &[range!(0, 3_599)], 900),
        variable!("integral", &[range!(4_000, 4_000)], &[ZERO], false, 0),
        TICKS,
        UNUSED,
    ],
};

/// The record of kind `flight_control`.
pub const FLIGHT_CONTROL: Kind = Kind {
    name: name_of::FLIGHT_CONTROL,
    modes: &[None, Some("augmented"), Some("direct")],
    widest: flight_control::DIRECT,
    variables: &[
        STATUS,
        moving!(
            "elevator",
            &[range!(100, 100), range!(200, 200)],
            &[range!(50, 50), range!(200, 200)]
        ),
        moving!(
            "aileron",
            &[range!(150, 150), range!(300, 300)],
            &[range!(50, 50), range!(100, 100)]
        ),
        moving!("command_pitch", &[range!(100, 100)], &[range!(100, 100)]),
        moving!("command_roll", &[range!(150, 150)], &[range!(150, 150)]),
        UNUSED,
        TICKS,
        UNUSED,
    ],
};

/// The record of kind `power_monitor`.
pub const POWER_MONITOR: Kind = Kind {
    name: name_of::POWER_MONITOR,
    modes: &[None, Some("normal"), Some("saver"), Some("essential")],
    widest: power_monitor::NORMAL,
    variables: &[
        STATUS,
        lasting!("charge", &[range!(0, 10_000)], 8_000),
        moving!("supply", &[range!(0, 120)], &[range!(0, 120)]),
        moving!(
            "demand",
            &[range!(0, 100), range!(0, 60), range!(0, 20)],
            &[range!(0, 100), range!(0, 60), range!(0, 20)]
        ),
        lasting!("shed", &[range!(0, 1)], 0),
        UNUSED,
        TICKS,
        UNUSED,
    ],
};

/// The record of kind `navigator`.
pub const NAVIGATOR: Kind = Kind {
    name: name_of::NAVIGATOR,
    modes: &[None, Some("route"), Some("coarse")],
    widest: navigator::ROUTE,
    variables: &[
        STATUS,
        moving!("bearing_error", &[range!(1_800, 1_799)], &[ZERO]),
        moving!("climb_left", &[range!(5_000, 5_000), ZERO], &[ZERO]),
        lasting!("on_course", &[range!(0, 1)], 0),
        UNUSED,
        UNUSED,
        TICKS,
        UNUSED,
    ],
};

/// The record of kind `data_link`.
pub const DATA_LINK: Kind = Kind {
    name: name_of::DATA_LINK,
    modes: &[None, Some("fast"), Some("slow")],
    widest: data_link::FAST,
    variables: &[
        STATUS,
        lasting!("queued", &[range!(0, 64)], 0),
        lasting!("sent", &[range!(0, 1_000_000)], 0),
        moving!(
            "rate",
            &[range!(0, 4), range!(0, 1)],
            &[range!(0, 4), range!(0, 1)]
        ),
        lasting!("dropped", &[range!(0, 1_000_000)], 0),
        UNUSED,
        TICKS,
        UNUSED,
    ],
};

/// The record of kind `task`.
pub const TASK: Kind = Kind {
    name: name_of::TASK,
    modes: &[None, Some("full"), Some("reduced"), Some("minimal")],
    widest: task::FULL,
    variables: &[
        STATUS, UNUSED, UNUSED, UNUSED, UNUSED, UNUSED, TICKS, UNUSED,
    ],
};

/// Returns the kind with this number, or `None` if there is no such kind.
pub fn find_kind(kind: u8) -> Option<Kind>
    ensures kind { option_map kind_read result ≡ find_kind kind }
    ensures few { IfSome result (λ found. length found.modes.now ≤ 8) }
    ensures eight { IfSome result (λ found. length found.variables.now ≡ 8) }
{
    match kind {
        autopilot::KIND => Some(AUTOPILOT),
        flight_control::KIND => Some(FLIGHT_CONTROL),
        power_monitor::KIND => Some(POWER_MONITOR),
        navigator::KIND => Some(NAVIGATOR),
        data_link::KIND => Some(DATA_LINK),
        task::KIND => Some(TASK),
        _ => None,
    }
}

/// Returns the kind with this number, or the task if there is no such kind.
pub fn kind_or_last(kind: u8) -> Kind
    ensures { kind_read result ≡ kind_or_last kind }
{
    find_kind(kind).unwrap_or(TASK)
}

/// Returns the word at index `variable` of the area of a kind, or an unused word if `variable` is 8 or more. If there
/// is no such kind, the area is that of the task.
pub fn kind_variable(kind: u8, variable: usize) -> Variable
    ensures { variable_read result ≡ kind_variable kind variable }
{
    match kind_or_last(kind).variables.get(variable) {
        Some(found) => *found,
        None => UNUSED,
    }
}

/// Returns the range of a mode in a list of up to three ranges for modes 1, 2 and 3. Every other mode has the last
/// range of the list. If the list is empty, the range contains only 0.
pub fn range_in(ranges: &[Range], mode: u8) -> Range
    ensures { result ≡ range_in ranges.now mode }
{
    match ranges {
        [] => ZERO,
        [only] => *only,
        [first, second] => { if mode == 1 { *first } else { *second } }
        [first, second, third, ..] => match mode {
            1 => *first,
            2 => *second,
            _ => *third,
        },
    }
}
