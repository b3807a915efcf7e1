//! Traces in files, with the specification of their missions. Each form that reads a trace is built on this module.

pub mod documents;
pub mod files;
mod lines;

pub use documents::Trace;
pub use files::{Flight, TraceFiles, read_flight};
