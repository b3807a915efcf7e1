//! The one-thread trace of a script: the kernel's decisions and orders in each frame, the areas, keepers, world and
//! row that result under halts and restarts, and the reconfigurations that are read off rows. All of these are proved
//! to be as defined, for every specification and every script that fits it.
#![tactic(auto)]

pub mod acts;
pub mod decisions;
pub mod frames;
pub mod laws;
mod outcomes;
pub mod phases;
pub mod readings;
pub mod sights;
pub mod systems;
pub mod tasks;
pub mod traces;

pub use acts::{running, runs};
pub use decisions::decide;
pub use fault_script::Input;
pub use frames::{frame, has_arrived, world_in};
pub use outcomes::act_of_order;
pub use phases::{Phase, phase_at, target};
pub use readings::{Reading, close, read_row, reports};
pub use systems::Sys;
pub use tasks::{Task, order_of, tasks_of};
pub use traces::rows;
