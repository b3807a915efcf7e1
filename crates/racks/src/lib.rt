//! Macros that create racks of the boxes of kinds 0 to 4. A rack holds the boxes from which it is created, in their
//! order. No contract states the kinds of the boxes. `racks_fit` tests the kinds after the racks are created.
#![tactic(auto)]

pub mod macros;
pub mod making;

pub use app_model::{App, Rack};
pub use autopilot::Autopilot;
pub use flight_control::FlightControl;
pub use making::{boxed, rack_of};
pub use more_apps::{Datalink, Navigator};
pub use power_monitor::PowerMonitor;
