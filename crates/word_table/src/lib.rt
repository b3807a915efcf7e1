//! The words that processors and the kernel share in a flight. They are in one table without a lock, and each word
//! has one writer. The rule of the table is that the words and the places of the actors satisfy the law of events.
//! Therefore the images that a step finds are those of the one-thread trace, whatever the other actors do meanwhile.
//! A look at a processor finds the image of that processor as of the start of the frame. A start finds the kernel
//! image of the frame. A note finds what a processor has committed. A store is lawful only if its word is that of the
//! one-thread trace. A step is lawful only if it is the next step of its actor.
#![tactic(auto)]

pub mod actors;
mod closing;
mod kernel_steps;
mod loads;
mod openings;
mod rests;
pub mod seats;
mod steps;
pub mod tables;
pub mod words;

pub use closing::LastWords;
pub use kernel_steps::Marked;
pub use seats::{KSeat, Seat};
pub use tables::WordTable;
pub use words::Words;
