//! Macros that make racks of boxes that count their calls. They are macros, since no function can make boxes and
//! return them. If memory runs out, each `?` in them returns from the calling function.

/// Makes a rack of five boxes that count their calls in `$own` and, if `$awaited` is given, wait for a call that is
/// counted there.
#[macro_export]
macro_rules! counted_rack {
    ($rt:expr, $own:expr, $awaited:expr) => {{
        let own = $own;
        let awaited = $awaited;
        let (first, second, third, fourth, fifth) = $crate::boxed(
            $rt.alloc(),
            (
                $crate::Counted::new($crate::Autopilot::new(), own, awaited),
                $crate::Counted::new($crate::FlightControl::new(), own, awaited),
                $crate::Counted::new($crate::PowerMonitor::new(), own, awaited),
                $crate::Counted::new($crate::Navigator::new(), own, awaited),
                $crate::Counted::new($crate::Datalink::new(), own, awaited),
            ),
        )?;
        $crate::rack_of($rt.alloc(), [first, second, third, fourth, fifth])?
    }};
}

/// Makes the first racks and the spare racks of eight processors, with boxes that count their calls in the given
/// `Counters`, and returns both lists. The first boxes of the first two processors wait for each other.
// Each place that makes boxes is expensive to prove, so one loop makes all racks.
#[macro_export]
macro_rules! counted_racks_and_spares {
    ($rt:expr, $counters:expr) => {{
        let mut racks = Vec::new($rt.alloc());
        let mut spares = Vec::new($rt.alloc());
        for place in 0..16 {
            let (own, awaited) = $counters.of_place(place);
            let rack = $crate::counted_rack!($rt, own, awaited);
            if place < 8 {
                racks.push(rack)?;
            } else {
                spares.push(rack)?;
            }
        }
        (racks, spares)
    }};
}
