//! Telemetry of a flight. After each row, the only writer publishes a summary of the flight by storing it in one
//! shared word, and readers load that word. There is no lock, no memory is allocated after the tap is opened, and no
//! call waits. The word always encodes the summary of the rows published so far. Therefore a reader loads only
//! summaries of published rows, and never an older summary than the last that it loaded.
#![tactic(auto)]

pub mod laws;
mod openings;
mod progress;
mod steps;
pub mod summaries;
pub mod taps;
pub mod views;
pub mod watches;

pub use summaries::Summary;
pub use taps::{Reader, Tap, Writer};
pub use watches::{Publisher, Watch};
