//! The view that an application has in a frame.

use scram_types::{Area, Goal, Mode, World};

/// The view of an application in a frame. `mode` is the mode that the application is to be in, and `own` is its area.
/// `lead[k]` is the area of the lowest-numbered application of kind `k`, or zeros if there is no such application.
/// Areas and world are as of the end of the previous frame, and `factors` are as of the frame itself.
#[derive(Clone, Copy, Debug, PartialEq, Eq)]
pub struct Seen {
    pub mode: Mode,
    pub own: Area,
    pub lead: [Area; 8],
    pub world: World,
    pub factors: [u8; 6],
    pub goal: Goal,
}
