//! The core of a flight. It applies an event if and only if the event is the next of its actor. Otherwise it returns
//! the actor's next event and changes nothing. Its history is a schedule from the opening to the current places and
//! stored words. Once the flight is over, the core's rows and reports are those of the one-thread trace, for any
//! schedule.
#![tactic(auto)]

pub mod cores;
pub mod flyers;
mod frames;
pub mod laws;
mod moves;
mod nexts;
pub mod places;
mod reads;
mod stores;

pub use cores::{Core, Illegal, finish_both};
pub use places::{Place, Places};
