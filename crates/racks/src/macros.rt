//! Macros that create racks. They are macros because no function may create boxes and return them. Each `?` in them
//! returns the out-of-memory error from the enclosing function.

/// Creates a rack of five boxes, given its first application. The other four are of kinds 1 to 4.
#[macro_export]
macro_rules! rack {
    ($rt:expr, $first:expr) => {{
        let (first, second, third, fourth, fifth) = $crate::boxed(
            $rt.alloc(),
            (
                $first,
                $crate::FlightControl::new(),
                $crate::PowerMonitor::new(),
                $crate::Navigator::new(),
                $crate::Datalink::new(),
            ),
        )?;
        $crate::rack_of($rt.alloc(), [first, second, third, fourth, fifth])?
    }};
}

/// Creates eight racks, one for each processor, each with the boxes of kinds 0 to 4.
#[macro_export]
macro_rules! racks {
    ($rt:expr) => {{
        let mut racks = Vec::new($rt.alloc());
        for _ in 0..8 {
            racks.push($crate::rack!($rt, $crate::Autopilot::new()))?;
        }
        racks
    }};
}

/// Creates the racks and the spares of eight processors, each with the boxes of kinds 0 to 4, and returns both lists.
/// If a processor, as `Some(number)`, and an application are given, the rack of that processor has a box of the
/// application instead of the autopilot.
// Each place that creates boxes is expensive to prove, so one loop creates all racks.
#[macro_export]
macro_rules! racks_and_spares {
    ($rt:expr) => {{
        let mut racks = Vec::new($rt.alloc());
        let mut spares = Vec::new($rt.alloc());
        for place in 0..16 {
            let rack = $crate::rack!($rt, $crate::Autopilot::new());
            if place < 8 {
                racks.push(rack)?;
            } else {
                spares.push(rack)?;
            }
        }
        (racks, spares)
    }};
    ($rt:expr, $proc:expr, $first:expr) => {{
        let mut racks = Vec::new($rt.alloc());
        let mut spares = Vec::new($rt.alloc());
        for place in 0..16 {
            let rack = if $proc == Some(place) {
                $crate::rack!($rt, $first)
            } else {
                $crate::rack!($rt, $crate::Autopilot::new())
            };
            if place < 8 {
                racks.push(rack)?;
            } else {
                spares.push(rack)?;
            }
        }
        (racks, spares)
    }};
}
