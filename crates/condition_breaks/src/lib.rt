//! The lists of all places at which the conditions of acceptance do not hold, by the condition's number.
#![tactic(auto)]

pub mod breaks;
mod choosing;
mod demands;
mod finding;
mod form;
mod holding;
pub mod laws;
mod pushes;
pub mod ranges;
mod timing;

pub use breaks::{Break, Unheld, Way};
pub use finding::breaks_of;
