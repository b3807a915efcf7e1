//! Facts about a flight, derived from its rows and reports: differences between environments, decisions and their
//! causes, margins, gaps, extremes, spans and unfinished reconfigurations.
#![tactic(auto)]

pub mod acts;
pub mod decisions;
pub mod differences;
pub mod extremes;
pub mod gaps;
pub mod margins;
pub mod spans;
pub mod unfinished;
