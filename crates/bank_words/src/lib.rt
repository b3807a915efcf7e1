//! The words of stable storage that processors and the kernel share: numbers as words, marks, kernel images, and a
//! code for each event. Decoding returns what was encoded.
#![tactic(auto)]

pub mod events;
pub mod images;
pub mod marks;
pub mod numbers;

pub use events::{Event, event_code, event_of};
pub use images::{KernelImage, kernel_decode, kernel_encode};
pub use marks::{mark_word, pick};
pub use numbers::{decode, encode, words};
