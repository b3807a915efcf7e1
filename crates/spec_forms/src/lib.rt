//! The forms that answer a question about a specification: `check` and `bounds`, and `choices` and `choose` in
//! [`choice_forms`]. The output of a form depends only on the command's words and on the bytes of the file that the
//! words name.
#![tactic(auto)]

mod acceptance;
mod bound_pairs;
pub mod choice_forms;
mod lines;

pub use acceptance::check;
pub use bound_pairs::{bounds, find_asked};
pub use lines::{make_accepted_line, make_bound_line};
