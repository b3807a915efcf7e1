//! The forms that fly or generate missions: `run`, `watch`, `pair`, `replay`, `gen` and `fly`. The output of a form is
//! the answer to its arguments and to the bytes of the files that the arguments name. If a mission was flown and the
//! status is 0, the flight is assured.
#![tactic(auto)]

mod documents;
mod generated;
pub mod laws;
mod lines;
mod pairs;
mod replays;
mod runs;
mod summaries;
mod watches;

pub use generated::{fly_generated, print_generated};
pub use pairs::{PairFiles, pair_form};
pub use replays::{ReplayFiles, replay_form};
pub use runs::run;
pub use watches::watch;
