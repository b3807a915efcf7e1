//! Helpers of the test programs: rows and their lines, missions that are made from texts, flights on one thread,
//! printing of images, and boxes that count their calls. If the boxes of two processors wait for calls of one
//! another, a flight ends in time only if both processors have threads. No contract states the number of calls of a
//! box. Therefore, this number can only be tested.
#![tactic(auto)]

pub mod boxes;
pub mod calls;
pub mod images;
pub mod lines;
pub mod macros;
pub mod one_thread;
pub mod rows;
pub mod texts;

pub use crate::boxes::Counted;
pub use crate::calls::{Calls, Counters};
pub use crate::images::print_image;
pub use crate::lines::{change_piece, fill, line_after, number, number_after, split_word};
pub use crate::one_thread::{fly_alone, fly_frames, given, is_same};
pub use crate::rows::each_row;
pub use crate::texts::{mission_of_texts, script_of_text, spec_of_row, spec_of_text, uav_text};
pub use app_model::{App, Rack};
pub use racks::{Autopilot, Datalink, FlightControl, Navigator, PowerMonitor, boxed, rack_of};
