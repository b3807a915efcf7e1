//! The text of a trace. Each line is passed to the sink in one piece. If the sink fails, a prefix of the line may
//! have been written.
#![tactic(auto)]

pub mod app_reading;
pub mod laws;
pub mod lines;
pub mod lookups;
pub mod name_lists;
pub mod numbers;
pub mod pieces;
pub mod progress;
pub mod puts;
pub mod report_lines;
pub mod report_reading;
pub mod row_lines;
pub mod row_reading;
pub mod rule;
pub mod trace_reading;
pub mod words;

pub use puts::{put_end, put_report, put_row, put_trace};
pub use trace_reading::{TraceError, TraceFault, read_trace};
