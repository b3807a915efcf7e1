//! The kernel on two units, one of which may halt. For any order of events, the rows in each unit's log are the first
//! rows of the one-thread trace, and each processor reads the kernel image of its frame.
#![tactic(auto)]

mod cores;
mod drafts;
pub mod events;
pub mod law;
mod logs;
mod machines;
mod making;
mod nexts;
mod openings;
pub mod processors;
mod rounds;
mod setups;
mod sights;
pub mod states;
pub mod units;

pub use cores::PairCore;
pub use events::{PairEvent, UnitHalt};
pub use rounds::fly_on;
