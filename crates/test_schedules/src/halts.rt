//! The halts with which the script of a row is flown.

ghost use Rattle.std.specs.Prelude.{◌<◌};

use std::io::{self, ErrorKind};
use test_kit::number_after;

/// A halt: its processor, its frame, and the number of stores before it in that frame.
#[derive(Clone, Copy, Debug)]
pub(crate) struct Halt {
    pub proc: u32,
    pub frame: u32,
    pub step: u32,
}

/// All halts whose processor is below `procs`, whose frame is below `frames` and whose step is below `steps`.
#[derive(Clone, Copy, Debug)]
pub(crate) struct Halts {
    procs: u32,
    frames: u32,
    steps: u32,
    ghost some_frame: { 0 < frames },
    ghost some_step: { 0 < steps },
}

impl Halts {
    /// Returns the halts of a row, which gives the numbers of processors, frames and steps. A number that is missing
    /// is 1. Returns an error if a text is not a number, or if the number of frames or steps is 0.
    pub(crate) fn of_row(row: &str) -> io::Result<Halts> {
        let procs = number_after(row, "processors ", 1)?;
        let frames = number_after(row, "frames ", 1)?;
        let steps = number_after(row, "steps ", 1)?;
        if frames == 0 || steps == 0 {
            return Err(ErrorKind::InvalidInput.into());
        }
        Ok(Halts {
            procs,
            frames,
            steps,
        })
    }

    /// Returns the number of halts.
    pub(crate) fn count(&self) -> u32 {
        self.procs
            .saturating_mul(self.frames)
            .saturating_mul(self.steps)
    }

    /// Returns the halt with number `number`, counted from 0. From one number to the next, the step varies fastest,
    /// then the frame, and then the processor.
    pub(crate) fn halt(&self, number: u32) -> Halt {
        let frames = number / self.steps;
        Halt {
            proc: frames / self.frames,
            frame: frames % self.frames,
            step: number % self.steps,
        }
    }
}
