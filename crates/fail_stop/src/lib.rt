//! The machine of fail-stop processors. A script that fits its specification may have halts and restarts in any
//! frame. In every state of every schedule, the one-thread trace and the actors' steps determine the marks, the
//! banks, the kernel's words and the places. Therefore each reader in a frame finds the images of that frame, and a
//! live processor's draft is its draft in the one-thread trace.
#![tactic(auto)]

mod drafts;
pub mod flyers;
pub mod halts;
pub mod law;
pub mod notes;
pub mod openings;
pub mod snapshots;
pub mod units;
pub mod words;

pub use flyers::{Flyer, Unit};
pub use snapshots::{Draft, Snapshot};
pub use units::{Halted, Live};
