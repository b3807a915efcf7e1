//! The power monitor's law.
#![tactic(auto, unfolding(crate::specs::PowerMonitor::alternator_gives, crate::specs::PowerMonitor::supply_after, crate::specs::PowerMonitor::demand_after, crate::specs::PowerMonitor::charge_after, crate::specs::PowerMonitor::shed_after, crate::specs::PowerMonitor::power_monitor_ran))]

ghost use Rattle.std.specs.Prelude.{◌≡◌, ◌≤ℤ◌, ◌+ℤ◌, ◌-ℤ◌, pos};
ghost use Rattle.scram_types.specs.Numbers.{FitsSums};
ghost use Rattle.app_model.specs.PowerMonitor.{supply_after, demand_after, charge_after, shed_after, power_monitor_ran, alternator_gives};

use crate::reads::{next_ticks, read_own};
use crate::seen::Seen;
use kind_table::kinds::power_monitor::{CHARGE, KIND, NORMAL, SAVER};
use scram_types::Area;
use scram_types::ranges::{clamped_in, make_range};

fn alternator_gives(value: u8) -> i64
    ensures value { result ≡ alternator_gives value }
    ensures low { pos 0 ≤ℤ result }
    ensures high { result ≤ℤ pos 60 }
{
    if value == 0 { 60 } else { 0 }
}

fn next_supply(seen: &Seen) -> i64
    ensures value { result ≡ supply_after seen.now }
    ensures word { FitsSums result }
{
    alternator_gives(seen.factors[0]) + alternator_gives(seen.factors[1])
}

fn next_demand(seen: &Seen) -> i64
    ensures value { result ≡ demand_after seen.now }
    ensures word { FitsSums result }
{
    match seen.mode.0 {
        NORMAL => 100,
        SAVER => 60,
        _ => 20,
    }
}

fn balance(charge: i64, supply: i64, demand: i64) -> i64
    requires charge { FitsSums charge }
    requires supply { FitsSums supply }
    requires demand { FitsSums demand }
    ensures { result ≡ (charge +ℤ supply) -ℤ demand }
{
    charge + supply - demand
}

fn next_charge(seen: &Seen) -> i64
    ensures value { result ≡ charge_after seen.now }
    ensures word { FitsSums result }
{
    let balance = balance(
        read_own(KIND, seen, CHARGE),
        next_supply(seen),
        next_demand(seen),
    );
    clamped_in(make_range(0, 10_000), balance)
}

fn next_shed(seen: &Seen) -> i64
    ensures { result ≡ shed_after seen.now }
{
    if next_charge(seen) < 2_000 { 1 } else { 0 }
}

/// Returns the power monitor's area after a frame in which it runs.
pub fn run(seen: &Seen) -> Area
    ensures { result ≡ power_monitor_ran seen.now }
{
    [
        1,
        next_charge(seen),
        next_supply(seen),
        next_demand(seen),
        next_shed(seen),
        0,
        next_ticks(KIND, seen),
        0,
    ]
}
