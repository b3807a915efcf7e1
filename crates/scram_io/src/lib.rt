//! Input and output of SCRAM: files that are read and a sink that is written, each with a history and a count of
//! faults. A file is read as a whole. A sink takes all the bytes that are put or, at a fault, a prefix of them. After
//! a flush that succeeds, all bytes have been sent. Every fault is counted.
#![tactic(auto)]

pub mod files;
pub(crate) mod listed;
pub mod mem_files;
pub mod mem_sink;
pub(crate) mod notes;
pub(crate) mod opens;
pub mod real_files;
pub mod real_sink;
pub(crate) mod recorded;
pub mod sink;
pub mod streams;

pub use files::{Files, ReadFault};
pub use mem_files::MemFiles;
pub use mem_sink::MemSink;
pub use real_files::RealFiles;
pub use real_sink::RealSink;
pub use sink::{Sink, SinkFault};
