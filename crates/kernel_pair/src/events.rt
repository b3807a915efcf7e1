//! The events of a pair, and the halt of a unit.

use scram_types::ProcId;

/// The halt of unit 0 or 1 in a frame, after `step` of the unit's steps in the frame. The unit does not halt if the
/// flight has no such frame or the frame has fewer steps. It does not halt either if these steps include the last note
/// of the flight.
#[derive(Clone, Copy)]
pub struct UnitHalt {
    pub unit: u8,
    pub frame: u32,
    pub step: u8,
}

/// An event of a processor or of a unit.
#[derive(Clone, Copy, Debug, PartialEq, Eq)]
pub enum PairEvent {
    /// The processor makes its next frame, whole or up to its halt, by the words of this unit.
    Fly(ProcId, u8),
    /// The unit notes the mark and the image that this processor has after the unit's frame.
    Note(u8, ProcId),
    /// The unit stores this word of the kernel image of the next frame.
    Store(u8, u8),
    /// The unit signals to the other unit that it has stored all words of the kernel image.
    Ready(u8),
    /// The unit finds that the other unit is ready too, or has halted.
    Meet(u8),
    /// The unit releases the next frame.
    Release(u8),
    /// The unit halts.
    Stop(u8),
}
