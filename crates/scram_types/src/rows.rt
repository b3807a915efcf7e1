//! The contents of a trace: areas, the world, the environment, rows and reports.

use crate::ids::ConfId;
use crate::lists::List;
use crate::orders::{Act, KMode};

/// The eight words of an application in stable storage, which are zeros while the application is off.
pub type Area = [i64; 8];

/// The words of a processor in stable storage: word `8 * a + i` is word `i` of application `a`.
pub type Image = [i64; 64];

/// The state of the aircraft: `alt` in feet, `climb` in tenths of a foot per frame, `heading` and `bank` in tenths of
/// a degree.
#[derive(Clone, Copy, Debug, PartialEq, Eq)]
pub struct World {
    pub alt: i64,
    pub climb: i64,
    pub heading: i64,
    pub bank: i64,
}

/// The goal of the mission: `altitude` in feet, 0 to 40,000, and `heading` in tenths of a degree, 0 to 3,599.
#[derive(Clone, Copy, Debug, PartialEq, Eq)]
pub struct Goal {
    pub altitude: i64,
    pub heading: i64,
}

/// The environment, on which the choices of the choice table depend. Bit `p` of `up` is set if processor `p` is up;
/// bits past the last processor are clear. `factors` holds the number of each factor's value, and 0 past the last
/// factor.
#[derive(Clone, Copy, Debug, PartialEq, Eq)]
pub struct Env {
    pub up: u8,
    pub factors: [u8; 6],
}

/// One frame of a trace: the frame's environment and kernel mode, the act and the area of each application, and the
/// world at the end of the frame. Past the last application the acts are `Off` and the areas are zeros.
#[derive(Clone, Copy, PartialEq, Eq)]
pub struct Row {
    pub frame: u32,
    pub env: Env,
    pub mode: KMode,
    pub acts: [Act; 8],
    pub areas: [Area; 8],
    pub world: World,
}

/// A reconfiguration, with the frames in which it began and ended. If the script ended first, `to` is `None` and
/// `end` is the number of frames.
#[derive(Clone, Copy, PartialEq, Eq)]
pub struct Report {
    pub from: ConfId,
    pub to: Option<ConfId>,
    pub begin: u32,
    pub end: u32,
}

/// The trace of a finished flight: its rows and the reports of its reconfigurations.
pub struct Flown {
    pub rows: List<Row>,
    pub reports: List<Report>,
}

// A derived drop is laid out in the proof of each function that drops the value, and this one is a call.
impl Drop for Flown {
    fn drop(self) {
        let Flown {
            rows: _,
            reports: _,
        } = self;
    }
}
