//! Threads that fly a mission over shared words. A turn makes steps of one actor on the table of words and nothing
//! else. In its turn a processor flies its next frame, whole or up to its halt. In its turn the kernel notes the
//! processors that it may note, and ends the frame once all are noted. The result of a flight is the one-thread
//! trace, for every order of the turns.
#![tactic(auto)]

pub mod crews;
mod frames;
mod kernel_actors;
pub mod kernels;
pub mod landings;
pub mod scopes;
pub mod turns;
mod watched;
pub mod word_flights;

pub use crews::Crew;
pub use kernels::KernelCrew;
pub use turns::Turn;
pub use word_flights::{Landed, WordFlight};
