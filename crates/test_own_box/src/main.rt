//! A program as a builder might write it. It flies a mission as a `WordFlight`, with its own flight control in each
//! rack, and prints the trace. The spare racks have no boxes, so a processor that has restarted computes the laws
//! without boxes.
#![tactic(auto)]

mod own_box;
mod own_flight;

use crate::own_box::OwnFlightControl;
use crate::own_flight::fly;
use racks::{Autopilot, Datalink, Navigator, PowerMonitor, boxed, rack_of};
use std::io;

fn main(rt: HostRuntime) -> io::Result<()> {
    let mut racks = Vec::new(rt.alloc());
    for _ in 0..8 {
        let (first, second, third, fourth, fifth) = boxed(
            rt.alloc(),
            (
                Autopilot::new(),
                OwnFlightControl {},
                PowerMonitor::new(),
                Navigator::new(),
                Datalink::new(),
            ),
        )?;
        racks.push(rack_of(rt.alloc(), [first, second, third, fourth, fifth])?)?;
    }
    fly(&rt, &rt, racks)
}
