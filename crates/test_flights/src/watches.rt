//! The telemetry of flights. The number of different summaries that the readers see depends on the machine. Therefore,
//! it is printed to standard error.

mod notes;
mod readers;
mod summaries;

pub use notes::note;
pub use readers::watch;
