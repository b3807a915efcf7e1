//! The forms `choices` and `choose`, which show the choice table. The output of a form depends only on the command's
//! words and the bytes of the file that the words name.

mod choosing;
mod lines;
pub mod states;
mod tables;

pub use choosing::{Question, choose};
pub use lines::{is_placed_on, make_needs_line};
pub use tables::{choices, find_shares};
