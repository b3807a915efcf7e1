//! The minimum and the maximum of a quantity of the aircraft.

ghost use Rattle.std.specs.Prelude.{◌≡◌, ◌≤◌, ◌+◌, ◌++◌, Some, length};
ghost use Rattle.scram_types.specs.declared.limits.TheConstants.{MAX_LINE_BYTES};
ghost use Rattle.flight_facts.specs.Extremes.{extremes_of, extremes_text, quantity_of, widened};

use scram_types::{Row, World};
use trace_text::lines::Line;

/// A quantity of the aircraft that a row contains.
#[derive(Clone, Copy)]
pub enum Quantity {
    /// The altitude, in feet.
    Altitude,
    /// The climb, in tenths of a foot per frame.
    Climb,
    /// The heading, in tenths of a degree.
    Heading,
    /// The bank, in tenths of a degree.
    Bank,
}

/// The minimum and the maximum of a sequence of numbers.
#[derive(Clone, Copy)]
pub struct Extremes {
    pub least: i64,
    pub greatest: i64,
}

/// Returns the value of a quantity of the aircraft.
pub fn quantity_of(quantity: Quantity, world: &World) -> i64
    ensures { result ≡ quantity_of quantity world.now }
{
    match quantity {
        Quantity::Altitude => world.alt,
        Quantity::Climb => world.climb,
        Quantity::Heading => world.heading,
        Quantity::Bank => world.bank,
    }
}

/// Returns the minimum and the maximum of a quantity over all rows, or `None` if there are no rows.
pub fn extremes_of(quantity: Quantity, rows: &[Row]) -> Option<Extremes>
    ensures { result ≡ extremes_of quantity rows.now }
{
    let mut so_far = None;
    let mut k = rows.len();
    while k > 0 {
        k -= 1;
        so_far = Some(widened(quantity_of(quantity, &rows[k].world), so_far));
    }
    so_far
}

fn widened(number: i64, so_far: Option<Extremes>) -> Extremes
    ensures { result ≡ widened number so_far }
{
    match so_far {
        Some(so_far) => Extremes {
            least: number.min(so_far.least),
            greatest: number.max(so_far.greatest),
        },
        None => Extremes {
            least: number,
            greatest: number,
        },
    }
}

/// Appends the minimum, the word `to` and the maximum, separated by spaces.
pub fn add_extremes(line: &mut Line, extremes: &Extremes)
    requires { length line.old + 44 ≤ MAX_LINE_BYTES }
    ensures text { line.new ≡ line.old ++ extremes_text extremes.now }
    ensures short { length line.new ≤ length line.old + 44 }
{
    line.signed(&extremes.least);
    line.text(b" to ");
    line.signed(&extremes.greatest);
}
