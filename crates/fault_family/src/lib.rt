//! The family of fault scripts of a specification: the scripts with one, two or three faults that keep its failure
//! assumption. The first fault comes in frame 1. Each further fault comes soon after the previous one, or so much later
//! that no window contains both.
#![tactic(auto)]

pub mod candidates;
pub mod faults;
pub mod laws;
pub mod scripts;
pub mod within;
