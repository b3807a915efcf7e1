//! The places of the actors of a flight.

/// The place of a processor: its frame and the number of steps that it has made in the frame, or the frame in which
/// it has halted.
#[derive(Clone, Copy)]
pub enum Place {
    At(u32, u32),
    Halted(u32),
}

/// The place of each processor, the kernel's frame, and the number of steps that the kernel has made in its frame.
#[derive(Clone, Copy)]
pub struct Places {
    pub procs: [Place; 8],
    pub frame: u32,
    pub step: u32,
}
