//! The lines about the places at which a specification fails acceptance. Each of the first [`MAX_BREAK_LINES`] places
//! at which a condition does not hold has a line, in order.
#![tactic(auto)]

mod choice_lines;
mod demand_lines;
mod limit_lines;
mod limits;
mod lines;
mod texts;

pub use texts::{MAX_BREAK_LINES, make_breaks};
