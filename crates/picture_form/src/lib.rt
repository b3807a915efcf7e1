//! The form `picture`, which prints a trace as a picture in SVG. The output of the form depends only on the bytes of
//! the files that the command's words name.
#![tactic(auto)]

mod boxes;
mod curves;
mod lanes;
pub mod laws;
mod pictures;
mod quantities;
mod reconfigurations;
mod sheets;
mod spans;
mod styles;

pub use pictures::picture_form;
