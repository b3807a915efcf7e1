//! The motion of the aircraft. A step takes any world and any positions of the two surfaces to the world of the next
//! frame, in which every number lies in its range.
#![tactic(auto)]

pub mod motion;

pub use motion::step;
