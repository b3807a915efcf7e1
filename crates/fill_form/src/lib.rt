//! The form `fill`, which prints a specification with sufficient bounds and a sufficient window. The output of the
//! form depends only on the bytes of the file that the command's words name.
#![tactic(auto)]

mod filling;
mod forms;
pub mod laws;
mod refusing;

pub use forms::fill;
