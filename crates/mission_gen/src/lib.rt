//! Missions that are generated from a number. All missions have the same specification. The script of a mission
//! depends on the number alone, fits the specification, and keeps to the failure assumption of the specification. A
//! mission is written as the canonical texts of its specification and its script.
#![tactic(auto)]

mod missions;
mod random;
mod texts;
mod walks;

pub use missions::{generate, uav, write_mission};
