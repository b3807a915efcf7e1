//! The law of every kind.

ghost use Rattle.std.specs.Prelude.{◌≡◌};
ghost use Rattle.app_model.specs.Law.{law, ran};

use crate::orders::area_after;
use crate::seen::Seen;
use crate::{
    autopilot_law, data_link_law, flight_control_law, navigator_law, power_monitor_law, task_law,
};
use kind_table::kinds::{autopilot, data_link, flight_control, navigator, power_monitor};
use scram_types::{Area, KindId, Order};

fn run_of(kind: KindId, seen: &Seen) -> Area
    ensures { result ≡ ran kind.0 seen.now }
{
    match kind.0 {
        autopilot::KIND => autopilot_law::run(seen),
        flight_control::KIND => flight_control_law::run(seen),
        power_monitor::KIND => power_monitor_law::run(seen),
        navigator::KIND => navigator_law::run(seen),
        data_link::KIND => data_link_law::run(seen),
        _ => task_law::run(seen),
    }
}

/// Returns the area of an application of kind `kind` after a frame with order `order`, by the law of the kind.
pub fn law_area(kind: KindId, order: Order, seen: &Seen) -> Area
    ensures { result ≡ law kind.0 order seen.now }
{
    match area_after(kind.0, order, seen) {
        Some(area) => area,
        None => run_of(kind, seen),
    }
}
