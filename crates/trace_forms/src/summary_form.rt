//! The form `summary`, which prints the summary of a flight. The output of the form depends only on the bytes of the
//! files that the command's words name.

mod lines;
mod summaries;

pub use summaries::summary_form;
