//! The kernel of a flight. From the marks and the images of the processors after each frame, the kernel writes the
//! frame's row and logs reconfigurations. It then returns the kernel image of the next frame, exactly as in the
//! one-thread trace.
#![tactic(auto)]

mod drawing;
mod images;
pub mod kernels;

pub use kernels::Kernel;
