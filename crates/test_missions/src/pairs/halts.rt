//! The halts with which the script of a row is flown.

ghost use Rattle.std.specs.Prelude.{◌<◌};

use kernel_pair::UnitHalt;
use std::io::{self, ErrorKind};
use test_kit::{line_after, number, number_after};

/// The halts of a row: one for each unit below `units`, frame below `frames` and number of steps below `steps`.
#[derive(Clone, Copy, Debug)]
pub(crate) struct Halts {
    units: u32,
    frames: u32,
    steps: u32,
    ghost some_frame: { 0 < frames },
    ghost some_step: { 0 < steps },
}

impl Halts {
    /// Returns the halts of a row, or `None` if the row gives no number of units or the number 0. Returns an error if
    /// a text is not a number, or if the number of frames or steps is 0.
    pub(crate) fn of_row(row: &str) -> io::Result<Option<Halts>> {
        let units = number_after(row, "units ", 0)?;
        let frames = number_after(row, "frames ", 1)?;
        let steps = number_after(row, "steps ", 1)?;
        if units == 0 {
            return Ok(None);
        }
        if frames == 0 || steps == 0 {
            return Err(ErrorKind::InvalidInput.into());
        }
        Ok(Some(Halts {
            units,
            frames,
            steps,
        }))
    }

    pub(crate) fn count(&self) -> u32 {
        self.units
            .saturating_mul(self.frames)
            .saturating_mul(self.steps)
    }

    /// Returns the halt with number `number`, counted from 0. From one number to the next, the step varies fastest,
    /// then the frame, and then the unit.
    pub(crate) fn halt(&self, number: u32) -> UnitHalt {
        let frames = number / self.steps;
        UnitHalt {
            unit: low_byte(frames / self.frames),
            frame: frames % self.frames,
            step: low_byte(number % self.steps),
        }
    }
}

/// Returns the halt in the line `halt UNIT FRAME STEP` of a row, or `None` if the row has no such line. Returns an
/// error if a text in the line is not a number.
pub(crate) fn halt_of_row(row: &str) -> io::Result<Option<UnitHalt>> {
    let Some(words) = line_after(row, "halt ") else {
        return Ok(None);
    };
    let (unit, rest) = words.split_once(' ').unwrap_or((words, ""));
    let (frame, step) = rest.split_once(' ').unwrap_or((rest, ""));
    Ok(Some(UnitHalt {
        unit: low_byte(number(unit)?),
        frame: number(frame)?,
        step: low_byte(number(step)?),
    }))
}

/// Returns the lowest eight bits of a number.
pub(crate) fn low_byte(number: u32) -> u8 {
    (number % 256) as u8
}
