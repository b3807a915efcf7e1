//! The navigator, the data link and an autopilot without memory as applications in boxes. Whatever the boxes
//! remember, they answer by the laws of their kinds.
#![tactic(auto)]

pub mod data_link;
pub mod navigator;
pub mod plain_autopilot;

pub use data_link::Datalink;
pub use navigator::Navigator;
pub use plain_autopilot::PlainAutopilot;
