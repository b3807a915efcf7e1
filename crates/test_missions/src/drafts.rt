//! Drafts of live processors with real boxes, compared with the same frames on one thread without boxes. The aircraft
//! `uav` flies fourteen frames, and its first alternator fails in frame 10. Each processor drafts every frame from
//! what it sees, and all images are these drafts. The program prints the start images and the drafts of frames 0, 10
//! and 13, which are worked out by hand. It also prints each area of a row that differs from its keeper's image, and
//! the number of calls of the box at each autopilot's place.

mod beside;

use crate::drafts::beside::start;
use racks::{Autopilot, rack};
use std::io;
use std::rt::HostRuntime;
use test_kit::{Counted, Counters};

/// Flies the frames, and prints the drafts.
pub fn draft(rt: &HostRuntime) -> io::Result<()> {
    let counters = Counters::new(rt.alloc())?;
    let rack = rack!(rt, Counted::new(Autopilot::new(), counters.own(0), None));
    let other = rack!(rt, Counted::new(Autopilot::new(), counters.own(1), None));
    start(rt, rack, other, &counters)
}
