//! The order of applications: their ranks or a cycle of their needs, and the timetable of a configuration. The
//! timetable contains the frames at which applications halt, prepare and initialise. Each application waits for the
//! longest chain of applications that go before it.
#![tactic(auto)]

pub mod laws;
pub mod ranks;
pub mod timetables;

pub use ranks::{Cycle, rank};
pub use timetables::{Times, timetable};
