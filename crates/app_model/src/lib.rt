//! Applications in boxes, and their laws. Whatever state an application keeps, the area that it returns in a frame is
//! defined by the law of its kind, given the order and what the application sees. Each word of the area lies in its
//! range for the application's status.
#![tactic(auto)]

pub mod all_laws;
pub mod app;
mod autopilot_law;
pub mod boxes;
pub mod calls;
mod comparisons;
mod data_link_law;
mod flight_control_law;
pub mod headings;
pub mod laws;
pub mod memory;
mod navigator_law;
pub mod orders;
mod power_monitor_law;
pub mod racks;
pub mod reads;
pub mod seen;
pub mod starts;
mod task_law;

pub use all_laws::law_area;
pub use app::App;
pub use boxes::{Boxes, empty_boxes};
pub use racks::{Rack, rack_fits, racks_fit};
pub use seen::Seen;
pub use starts::start_area;
