//! The curves of a picture, with their names, units and points.

ghost use Rattle.std.specs.Prelude.{◌≡◌, ◌≤◌, length};
ghost use Rattle.scram_io.specs.Outside.{Prints};
ghost use Rattle.form_base.specs.Texts.{texts_below};
ghost use Rattle.picture_form.specs.Curves.{curve_line_text, curve_text, point_text, points_text};
ghost use Rattle.picture_form.specs.Picture.{altitude_text, curves_text, heading_text, names_text, quantity_name, quantity_text, quantity_unit};
ghost use Rattle.picture_form.specs.Sheets.{IsWithinLimits};

use crate::curves::{Curve, make_curve_begin, make_curve_end, make_curve_names, make_point};
use crate::sheets::Sheet;
use flight_facts::extremes::{Quantity, extremes_of};
use scram_io::{Sink, SinkFault};
use scram_types::Row;
use trace_text::lines::Line;

/// Writes the curves of the altitude and of the heading, one below the other.
pub(crate) fn put_curves<K: Sink>(out: &mut K, sheet: Sheet, rows: &[Row]) -> Result<(), SinkFault>
    requires { IsWithinLimits sheet }
    ensures { Prints result (K.state out.old) (K.state out.new) (curves_text sheet rows.now) }
{
    match put_altitude(out, sheet, rows) {
        Ok(()) => put_heading(out, sheet, rows),
        Err(fault) => Err(fault),
    }
}

fn put_altitude<K: Sink>(out: &mut K, sheet: Sheet, rows: &[Row]) -> Result<(), SinkFault>
    requires { IsWithinLimits sheet }
    ensures { Prints result (K.state out.old) (K.state out.new) (altitude_text sheet rows.now) }
{
    put_quantity(out, sheet, rows, Quantity::Altitude, sheet.curves_y())
}

fn put_heading<K: Sink>(out: &mut K, sheet: Sheet, rows: &[Row]) -> Result<(), SinkFault>
    requires { IsWithinLimits sheet }
    ensures { Prints result (K.state out.old) (K.state out.new) (heading_text sheet rows.now) }
{
    put_quantity(out, sheet, rows, Quantity::Heading, sheet.curves_y() + 64)
}

fn put_quantity<K: Sink>(
    out: &mut K,
    sheet: Sheet,
    rows: &[Row],
    quantity: Quantity,
    y: u64,
) -> Result<(), SinkFault>
    requires { y ≤ 6100 }
    ensures { Prints result (K.state out.old) (K.state out.new) (quantity_text sheet rows.now quantity y) }
{
    match out.put(make_names(quantity, y).as_bytes()) {
        Ok(()) => put_curve(out, sheet, rows, quantity, y),
        Err(fault) => Err(fault),
    }
}

fn make_names(quantity: Quantity, y: u64) -> Line
    requires { y ≤ 6100 }
    ensures { result ≡ names_text quantity y }
{
    make_curve_names(y, name_of_quantity(quantity), unit_of_quantity(quantity))
}

fn name_of_quantity(quantity: Quantity) -> &'static str
    ensures name { result.now ≡ quantity_name quantity }
    ensures short { length result.now ≤ 16 }
{
    match quantity {
        Quantity::Altitude => "altitude",
        Quantity::Climb => "climb",
        Quantity::Heading => "heading",
        Quantity::Bank => "bank",
    }
}

fn unit_of_quantity(quantity: Quantity) -> &'static str
    ensures unit { result.now ≡ quantity_unit quantity }
    ensures short { length result.now ≤ 16 }
{
    match quantity {
        Quantity::Altitude => "ft",
        Quantity::Climb => "0.1 ft",
        Quantity::Heading => "0.1 deg",
        Quantity::Bank => "0.1 deg",
    }
}

fn put_curve<K: Sink>(
    out: &mut K,
    sheet: Sheet,
    rows: &[Row],
    quantity: Quantity,
    y: u64,
) -> Result<(), SinkFault>
    requires { y ≤ 6100 }
    ensures { Prints result (K.state out.old) (K.state out.new) (curve_text sheet rows.now quantity y) }
{
    match extremes_of(quantity, rows) {
        Some(extremes) => put_line(
            out,
            sheet,
            rows,
            Curve {
                quantity,
                y,
                extremes,
            },
        ),
        None => Ok(()),
    }
}

fn put_line<K: Sink>(out: &mut K, sheet: Sheet, rows: &[Row], curve: Curve) -> Result<(), SinkFault>
    requires { curve.y ≤ 6100 }
    ensures { Prints result (K.state out.old) (K.state out.new) (curve_line_text sheet rows.now curve) }
{
    match out.put(make_curve_begin(sheet, curve.y).as_bytes()) {
        Ok(()) => put_points(out, sheet, rows, curve),
        Err(fault) => Err(fault),
    }
}

// Writes the points of a curve, followed by the end of its path.
fn put_points<K: Sink>(
    out: &mut K,
    sheet: Sheet,
    rows: &[Row],
    curve: Curve,
) -> Result<(), SinkFault>
    requires { curve.y ≤ 6100 }
    ensures { Prints result (K.state out.old) (K.state out.new) (points_text sheet rows.now curve) }
{
    match put_all_points(out, rows, curve) {
        Ok(()) => out.put(make_curve_end(sheet, curve.y, &curve.extremes).as_bytes()),
        Err(fault) => Err(fault),
    }
}

fn put_all_points<K: Sink>(out: &mut K, rows: &[Row], curve: Curve) -> Result<(), SinkFault>
    ensures { Prints result (K.state out.old) (K.state out.new) (texts_below (point_text rows.now curve) (length rows.now)) }
{
    for k in 0..rows.len() {
        match out.put(make_point(rows, curve, k).as_bytes()) {
            Ok(()) => {}
            Err(fault) => return Err(fault),
        }
    }
    Ok(())
}
