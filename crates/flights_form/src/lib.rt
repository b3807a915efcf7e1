//! The form `flights`, which flies the script on each line of a file. It prints a line for each script, and a line of
//! totals. The output of the form depends only on the bytes of the files that the command's words name.
#![tactic(auto)]

pub mod facts;
mod forms;
pub mod laws;
mod limits;
mod lines;
pub mod outcomes;
mod scripts;
mod series;
mod totals;

pub use forms::flights;
pub use series::ScriptsFiles;
