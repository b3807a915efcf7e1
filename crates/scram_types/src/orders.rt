//! The kernel's modes, its orders to applications, and the acts of applications.

use crate::ids::{ConfId, Mode, ProcId};

/// The kernel's mode in a frame.
#[derive(Clone, Copy, Debug, PartialEq, Eq)]
pub enum KMode {
    /// The configuration runs, and no reconfiguration is under way.
    Stable(ConfId),
    /// A reconfiguration is under way.
    Moving {
        /// The configuration that the reconfiguration leaves.
        from: ConfId,
        /// The configuration whose applications halt, or `None` if no application halts.
        halting: Option<ConfId>,
        /// The configuration to which the reconfiguration leads.
        to: ConfId,
        /// The frame in which the age of the reconfiguration is 0. In frame `f` the age is `f - since` frames.
        since: u32,
    },
}

/// The kernel's order to an application in a frame. In `Halt`, `Prepare` and `Init` the first number is the frame of
/// the phase, counted from 0, and the second number is the phase's length in frames, 1 to 16.
#[derive(Clone, Copy, Debug, PartialEq, Eq)]
pub enum Order {
    Run,
    Halt(u8, u8),
    Hold,
    Prepare(u8, u8),
    Init(u8, u8),
    Off,
}

/// The act of an application in a frame. The numbers of `Halting`, `Preparing` and `Initialising` are the frame of
/// the phase and the phase's length, as in [`Order`], and the processor is the one on which the application acted.
#[derive(Clone, Copy, Debug, PartialEq, Eq)]
pub enum Act {
    /// The application ran in this mode on this processor.
    Ran(Mode, ProcId),
    Halting(u8, u8, ProcId),
    Held,
    Preparing(u8, u8, ProcId),
    Initialising(u8, u8, ProcId),
    /// The application is off.
    Off,
    /// The application's processor did not commit the frame, so the application's area did not change.
    Lost,
}
