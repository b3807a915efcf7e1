//! The lanes of a picture.

ghost use Rattle.std.specs.Prelude.{◌≡◌, ◌<◌, ◌≤◌, ◌^◌, length};
ghost use Rattle.scram_io.specs.Outside.{Prints};
ghost use Rattle.flight_facts.specs.Spans.{IsLane};
ghost use Rattle.picture_form.specs.Lanes.{lane_text, lanes_text, name_line, spans_text, strip_of, strip_text};
ghost use Rattle.picture_form.specs.Sheets.{IsWithinLimits, lanes_of};

use crate::boxes::add_name;
use crate::sheets::Sheet;
use crate::spans::{Strip, lane_name, make_span};
use scram_io::{Sink, SinkFault};
use scram_types::{Row, Spec};
use trace_text::lines::Line;

/// Writes the lanes of all factors, processors and applications.
pub fn put_lanes<K: Sink>(
    out: &mut K,
    spec: &Spec,
    sheet: Sheet,
    rows: &[Row],
) -> Result<(), SinkFault>
    requires sheet { IsWithinLimits sheet }
    requires rows { length rows.now < 2 ^ 32 }
    ensures { Prints result (K.state out.old) (K.state out.new) (lanes_text spec.now sheet rows.now) }
{
    for n in 0..sheet.lanes() {
        match put_lane(out, spec, sheet, rows, n) {
            Ok(()) => {}
            Err(fault) => return Err(fault),
        }
    }
    Ok(())
}

fn put_lane<K: Sink>(
    out: &mut K,
    spec: &Spec,
    sheet: Sheet,
    rows: &[Row],
    n: u8,
) -> Result<(), SinkFault>
    requires sheet { IsWithinLimits sheet }
    requires lane { n < lanes_of sheet }
    requires rows { length rows.now < 2 ^ 32 }
    ensures { Prints result (K.state out.old) (K.state out.new) (lane_text spec.now sheet rows.now n) }
{
    put_strip(out, spec, sheet, rows, strip_of(sheet, n))
}

fn strip_of(sheet: Sheet, n: u8) -> Strip
    requires sheet { IsWithinLimits sheet }
    requires lane { n < lanes_of sheet }
    ensures value { result ≡ strip_of sheet n }
    ensures lane { IsLane result.lane }
    ensures y { result.y ≤ 6000 }
{
    Strip {
        lane: sheet.lane(n),
        y: sheet.lane_y(n),
    }
}

fn put_strip<K: Sink>(
    out: &mut K,
    spec: &Spec,
    sheet: Sheet,
    rows: &[Row],
    strip: Strip,
) -> Result<(), SinkFault>
    requires lane { IsLane strip.lane }
    requires y { strip.y ≤ 6000 }
    requires rows { length rows.now < 2 ^ 32 }
    ensures { Prints result (K.state out.old) (K.state out.new) (strip_text spec.now sheet rows.now strip) }
{
    match out.put(make_name_line(spec, strip).as_bytes()) {
        Ok(()) => put_spans(out, spec, sheet, rows, strip),
        Err(fault) => Err(fault),
    }
}

fn make_name_line(spec: &Spec, strip: Strip) -> Line
    requires { strip.y ≤ 6000 }
    ensures { result ≡ name_line spec.now strip }
{
    let mut line = Line::new();
    add_name(
        &mut line,
        strip.y + 12,
        lane_name(spec, strip.lane).as_bytes(),
    );
    line.text(b"\n");
    line
}

/// Writes the drawings of all spans of a lane, in the order of the rows.
pub fn put_spans<K: Sink>(
    out: &mut K,
    spec: &Spec,
    sheet: Sheet,
    rows: &[Row],
    strip: Strip,
) -> Result<(), SinkFault>
    requires lane { IsLane strip.lane }
    requires y { strip.y ≤ 6000 }
    requires rows { length rows.now < 2 ^ 32 }
    ensures { Prints result (K.state out.old) (K.state out.new) (spans_text spec.now sheet rows.now strip) }
{
    for k in 0..rows.len() {
        match out.put(make_span(spec, sheet, rows, strip, k).as_bytes()) {
            Ok(()) => {}
            Err(fault) => return Err(fault),
        }
    }
    Ok(())
}
