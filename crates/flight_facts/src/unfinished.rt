//! Reconfigurations that the end of a flight cut off.

ghost use Rattle.std.specs.Prelude.{◌≡◌, ◌<◌, ◌^◌, length};
ghost use Rattle.flight_facts.specs.Unfinished.{count_unfinished, has_no_target};

use scram_types::{ConfId, Report};

/// Returns the number of reconfigurations that the end of the flight cut off.
pub fn count_unfinished(reports: &[Report]) -> u32
    requires { length reports.now < 2 ^ 32 }
    ensures { result ≡ count_unfinished reports.now }
{
    let mut count = 0;
    for report in reports {
        if has_no_target(report.to) {
            count += 1;
        }
    }
    count
}

fn has_no_target(to: Option<ConfId>) -> bool
    ensures { result ≡ has_no_target to }
{
    match to {
        Some(_) => false,
        None => true,
    }
}
