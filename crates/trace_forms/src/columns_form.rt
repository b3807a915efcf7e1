//! The form `columns`, which prints a trace as a table of comma-separated values. The output of the form depends only
//! on the bytes of the files that the command's words name.

mod fields;
mod heads;
mod tables;

pub use tables::columns_form;
