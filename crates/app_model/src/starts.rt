//! The areas that applications begin with.

ghost use Rattle.std.specs.Prelude.{◌≡◌};
ghost use Rattle.app_model.specs.Starts.{start_at, start_of};

use kind_table::table::kind_variable;
use scram_types::{Area, KindId};

fn start_word(kind: u8, variable: usize) -> i64
    ensures { result ≡ start_at kind variable }
{
    kind_variable(kind, variable).start
}

/// Returns the area that an application of the kind begins with. The status is 4, as after an init phase. The other
/// words are 0, except the autopilot's target altitude, 5,000 feet, its target heading, 90 degrees, and the power
/// monitor's charge, 8,000 units.
pub fn start_area(kind: KindId) -> Area
    ensures { result ≡ start_of kind.0 }
{
    [
        start_word(kind.0, 0),
        start_word(kind.0, 1),
        start_word(kind.0, 2),
        start_word(kind.0, 3),
        start_word(kind.0, 4),
        start_word(kind.0, 5),
        start_word(kind.0, 6),
        start_word(kind.0, 7),
    ]
}
