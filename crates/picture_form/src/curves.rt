//! The curves of the aircraft's quantities over the rows of a flight, made without allocating.

ghost use Rattle.std.specs.Prelude.{◌≡◌, ◌<◌, ◌≤◌, ◌+◌, length, option_map};
ghost use Rattle.std.specs.Fmt.{signed_decimal};
ghost use Rattle.picture_form.specs.Curves.{crosses_north, curve_begin, curve_end, curve_names, distance, drop_of, is_joined, point_text};

use crate::boxes::{add_name, add_number, add_placed};
use crate::sheets::Sheet;
use flight_facts::extremes::{Extremes, Quantity, quantity_of};
use flight_facts::spans::row_before;
use scram_types::Row;
use trace_text::lines::Line;

/// The curve of a quantity. `y` is the y-coordinate of the curve's top in pixels, and `extremes` are the quantity's
/// extremes.
#[derive(Clone, Copy)]
pub struct Curve {
    pub quantity: Quantity,
    pub y: u64,
    pub extremes: Extremes,
}

fn distance(a: &i64, b: &i64) -> u64
    ensures { result ≡ distance a.now b.now }
{
    a.abs_diff(*b)
}

// Returns the distance of a value of a quantity from the top of the quantity's curve, in tenths of a pixel.
fn drop_of(extremes: &Extremes, number: &i64) -> u64
    ensures { result ≡ drop_of extremes.now number.now }
{
    let range = distance(&extremes.least, &extremes.greatest);
    if range == 0 {
        return 240;
    }
    let above = u128::from(distance(&extremes.least, number)) * 480 / u128::from(range);
    480u128.saturating_sub(above) as u64
}

fn crosses_north(quantity: Quantity, before: &i64, number: &i64) -> bool
    ensures { result ≡ crosses_north quantity before.now number.now }
{
    match quantity {
        Quantity::Altitude => false,
        Quantity::Climb => false,
        Quantity::Heading => distance(before, number) > 1800,
        Quantity::Bank => false,
    }
}

fn is_joined(quantity: Quantity, before: Option<&Row>, row: &Row) -> bool
    ensures { result ≡ is_joined quantity (option_map (λ row. row.now) before.entry) row.now }
{
    match before {
        Some(before) => {
            let earlier = quantity_of(quantity, &before.world);
            let number = quantity_of(quantity, &row.world);
            !crosses_north(quantity, &earlier, &number)
        }
        None => false,
    }
}

/// Returns the path command for the point of row `k` on a curve, or the empty line if there is no such row.
pub fn make_point(rows: &[Row], curve: Curve, k: usize) -> Line
    ensures { result ≡ point_text rows.now curve k }
{
    let mut line = Line::new();
    if let Some(row) = rows.get(k) {
        let joined = is_joined(curve.quantity, row_before(rows, k), row);
        line.text(if joined { b"L" } else { b"M" });
        add_number(&mut line, k as u64);
        line.text(b" ");
        let number = quantity_of(curve.quantity, &row.world);
        add_number(&mut line, drop_of(&curve.extremes, &number));
    }
    line
}

/// Returns the text elements for the name of a quantity and, below it, for its unit. They are to the left of the
/// curve whose top is at `y`.
pub fn make_curve_names(y: u64, name: &str, unit: &str) -> Line
    requires y { y ≤ 6100 }
    requires name { length name.now ≤ 16 }
    requires unit { length unit.now ≤ 16 }
    ensures { result ≡ curve_names y name.now unit.now }
{
    let mut line = Line::new();
    add_name(&mut line, y + 20, name.as_bytes());
    add_placed(&mut line, b"name note", 128, y + 34, unit.as_bytes());
    line.text(b"\n");
    line
}

/// Returns the start of the path element of a curve whose top is at `y`. Each point of the path is at the middle of a
/// row.
pub fn make_curve_begin(sheet: Sheet, y: u64) -> Line
    ensures { result ≡ curve_begin sheet y }
{
    let mut line = Line::new();
    line.text(b"<path class=\"line\" transform=\"translate(");
    add_number(&mut line, sheet.x(0) + sheet.scale() / 2);
    line.text(b" ");
    add_number(&mut line, y);
    line.text(b") scale(");
    add_number(&mut line, sheet.scale());
    line.text(b" .1)\" d=\"");
    line
}

/// Returns the end of the path element of a curve whose top is at `y`, followed by text elements for the quantity's
/// maximum and minimum. These elements are to the right of the curve.
pub fn make_curve_end(sheet: Sheet, y: u64, extremes: &Extremes) -> Line
    requires { y ≤ 6100 }
    ensures { result ≡ curve_end sheet y extremes.now }
{
    let x = sheet.x(u64::from(sheet.rows)) + 8;
    let mut line = Line::new();
    line.text(b"\"/>\n");
    add_placed(
        &mut line,
        b"note",
        x,
        y + 8,
        make_signed(&extremes.greatest).as_bytes(),
    );
    add_placed(
        &mut line,
        b"note",
        x,
        y + 48,
        make_signed(&extremes.least).as_bytes(),
    );
    line.text(b"\n");
    line
}

fn make_signed(number: &i64) -> Line
    ensures text { result ≡ signed_decimal number.now }
    ensures short { length result ≤ 20 }
{
    let mut line = Line::new();
    line.signed(number);
    line
}
