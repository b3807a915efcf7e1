//! Schedules as text. The text of a schedule is read as exactly its events. Any other text is refused at the first
//! line that breaks a rule, with the first rule that the line breaks. Text that is written for events of the
//! specification is read back as those events, if the text is not too long.
#![tactic(auto)]

pub mod event_lines;
pub mod laws;
pub mod limits;
pub mod refusals;
pub mod replays;
pub mod rule;
pub mod schedule_reading;
pub mod schedule_writing;
pub mod turns;
pub mod verbs;

pub use replays::{ReplayError, replay};
pub use schedule_reading::{ScheduleError, ScheduleFault, read_schedule};
pub use schedule_writing::write_schedule;
pub use turns::in_turns;
