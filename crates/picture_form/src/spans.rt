//! Spans, which are consecutive rows of a lane that are drawn as one box. Their drawings are made without allocating.

ghost use Rattle.std.specs.Prelude.{◌≡◌, ◌<◌, ◌≤◌, ◌+◌, ◌++◌, ◌^◌, length, codes};
ghost use Rattle.scram_types.specs.Lookups.{proc_name};
ghost use Rattle.scram_types.specs.declared.limits.TheConstants.{MAX_LINE_BYTES};
ghost use Rattle.flight_facts.specs.Spans.{IsLane};
ghost use Rattle.picture_form.specs.Spans.{act_label, class_text, label_of, lane_name, lane_span_text, mode_and_proc, rect_text, span_label, span_text, stable_text, value_in, words_text};

use crate::boxes::{add_box, add_frames, add_label, add_number};
use crate::sheets::Sheet;
use flight_facts::acts::act_word;
use flight_facts::spans::{Lane, span_at, stable_conf};
use scram_types::bits::has_bit;
use scram_types::{Act, AppId, ConfId, FactorId, KindId, ProcId, Row, Spec};
use trace_text::lines::Line;
use trace_text::row_lines::name_of_mode;

/// A lane, with the y-coordinate of its top in pixels.
#[derive(Clone, Copy)]
pub struct Strip {
    pub lane: Lane,
    pub y: u64,
}

/// Consecutive rows of a lane that are drawn as one box. `y` is the y-coordinate of the lane's top in pixels, `first`
/// is the index of the first row, and `rows` is the number of rows.
#[derive(Clone, Copy)]
pub struct Span {
    pub lane: Lane,
    pub y: u64,
    pub first: u32,
    pub rows: u32,
}

/// Returns the name of a lane, which has at most 16 bytes.
pub fn lane_name(spec: &Spec, lane: Lane) -> &str
    ensures name { result.now ≡ lane_name spec.now lane }
    ensures short { length result.now ≤ 16 }
{
    match lane {
        Lane::Configuration => "configuration",
        Lane::Factor(i) => spec.factor_name(FactorId(i)),
        Lane::Processor(p) => spec.proc_name(ProcId(p)),
        Lane::Application(a) => spec.app_name(AppId(a)),
    }
}

/// Returns the drawing of the span that begins in row `k`, or the empty line if no span begins there.
pub fn make_span(spec: &Spec, sheet: Sheet, rows: &[Row], strip: Strip, k: usize) -> Line
    requires lane { IsLane strip.lane }
    requires y { strip.y ≤ 6000 }
    requires rows { length rows.now < 2 ^ 32 }
    requires row { k < 2 ^ 32 }
    ensures { result ≡ span_text spec.now sheet rows.now strip k }
{
    match rows.get(k) {
        Some(row) => match span_at(strip.lane, rows, k) {
            Some(n) => make_lane_span(
                spec,
                sheet,
                row,
                Span {
                    lane: strip.lane,
                    y: strip.y,
                    first: k as u32,
                    rows: n,
                },
            ),
            None => Line::new(),
        },
        None => Line::new(),
    }
}

fn make_lane_span(spec: &Spec, sheet: Sheet, row: &Row, span: Span) -> Line
    requires lane { IsLane span.lane }
    requires y { span.y ≤ 6000 }
    ensures { result ≡ lane_span_text spec.now sheet row.now span span.lane }
{
    match span.lane {
        Lane::Configuration => make_stable(spec, sheet, stable_conf(&row.mode), span),
        Lane::Factor(_) => make_rect(spec, sheet, row, span),
        Lane::Processor(p) => if has_bit(row.env.up, p) {
            make_rect(spec, sheet, row, span)
        } else {
            Line::new()
        },
        Lane::Application(_) => make_rect(spec, sheet, row, span),
    }
}

fn make_stable(spec: &Spec, sheet: Sheet, conf: Option<ConfId>, span: Span) -> Line
    requires y { span.y ≤ 6000 }
    ensures { result ≡ stable_text spec.now sheet conf span }
{
    let mut line = Line::new();
    if let Some(conf) = conf {
        line.text(b"<path class=\"stable\" d=\"M");
        add_number(&mut line, sheet.x(u64::from(span.first)));
        line.text(b" 38h");
        add_number(&mut line, sheet.width_of(span.rows));
        line.text(b"\"/>");
        add_span_label(&mut line, sheet, span, spec.conf_name(conf).as_bytes());
        line.text(b"\n");
    }
    line
}

fn make_rect(spec: &Spec, sheet: Sheet, row: &Row, span: Span) -> Line
    requires lane { IsLane span.lane }
    requires y { span.y ≤ 6000 }
    ensures { result ≡ rect_text spec.now sheet row.now span }
{
    let mut line = Line::new();
    line.text(b"<rect class=\"");
    add_class(&mut line, span.lane, row);
    line.text(b"\"");
    add_box(
        &mut line,
        sheet.x(u64::from(span.first)),
        span.y,
        sheet.width_of(span.rows),
    );
    line.text(b"><title>");
    line.text(lane_name(spec, span.lane).as_bytes());
    line.text(b" ");
    add_words(&mut line, spec, span.lane, row);
    add_frames(&mut line, span.first, span.rows);
    line.text(b"</title></rect>");
    add_span_label(
        &mut line,
        sheet,
        span,
        make_label(spec, span.lane, row).as_bytes(),
    );
    line.text(b"\n");
    line
}

fn add_span_label(line: &mut Line, sheet: Sheet, span: Span, label: &[u8])
    requires room { length line.old + 120 ≤ MAX_LINE_BYTES }
    requires label { length label.now ≤ 33 }
    requires y { span.y ≤ 6000 }
    ensures text { line.new ≡ line.old ++ span_label sheet span label.now }
    ensures short { length line.new ≤ length line.old + 120 }
{
    add_label(
        line,
        sheet.x(u64::from(span.first)),
        span.y,
        sheet.width_of(span.rows),
        label,
    );
}

fn value_in<'a>(spec: &'a Spec, i: u8, row: &Row) -> &'a str
    requires { i < 6 }
    ensures name { result.now ≡ value_in spec.now i row.now }
    ensures short { length result.now ≤ 16 }
{
    let i = usize::from(i);
    match spec.factors.items().get(i) {
        Some(factor) => factor.value_name(row.env.factors[i]),
        None => "",
    }
}

fn add_class(line: &mut Line, lane: Lane, row: &Row)
    requires lane { IsLane lane }
    requires room { length line.old + 12 ≤ MAX_LINE_BYTES }
    ensures text { line.new ≡ line.old ++ class_text lane row.now }
    ensures short { length line.new ≤ length line.old + 12 }
{
    match lane {
        Lane::Configuration => line.text(b"stable"),
        Lane::Factor(i) => {
            line.text(b"v");
            line.number(u32::from(row.env.factors[usize::from(i)]));
        }
        Lane::Processor(_) => line.text(b"up"),
        Lane::Application(a) => line.text(act_word(&row.acts[usize::from(a)]).text().as_bytes()),
    }
}

fn add_words(line: &mut Line, spec: &Spec, lane: Lane, row: &Row)
    requires lane { IsLane lane }
    requires room { length line.old + 46 ≤ MAX_LINE_BYTES }
    ensures text { line.new ≡ line.old ++ words_text spec.now lane row.now }
    ensures short { length line.new ≤ length line.old + 46 }
{
    match lane {
        Lane::Configuration => line.text(b"stable"),
        Lane::Factor(i) => line.text(value_in(spec, i, row).as_bytes()),
        Lane::Processor(_) => line.text(b"up"),
        Lane::Application(a) => {
            let act = &row.acts[usize::from(a)];
            line.text(act_word(act).text().as_bytes());
            add_mode_and_proc(line, spec, spec.kind_of_app(AppId(a)), act);
        }
    }
}

// Appends the mode and the processor of an act, each preceded by a space. A mode or a processor that the act does not
// have is left out.
fn add_mode_and_proc(line: &mut Line, spec: &Spec, kind: KindId, act: &Act)
    requires { length line.old + 34 ≤ MAX_LINE_BYTES }
    ensures text { line.new ≡ line.old ++ mode_and_proc spec.now kind.0 act.now }
    ensures short { length line.new ≤ length line.old + 34 }
{
    match act {
        Act::Ran(mode, proc) => {
            line.text(b" ");
            line.text(name_of_mode(kind, *mode).as_bytes());
            add_proc(line, spec, *proc);
        }
        Act::Halting(_, _, proc) => add_proc(line, spec, *proc),
        Act::Held => {}
        Act::Preparing(_, _, proc) => add_proc(line, spec, *proc),
        Act::Initialising(_, _, proc) => add_proc(line, spec, *proc),
        Act::Off => {}
        Act::Lost => {}
    }
}

fn add_proc(line: &mut Line, spec: &Spec, proc: ProcId)
    requires { length line.old + 17 ≤ MAX_LINE_BYTES }
    ensures text { line.new ≡ line.old ++ codes " " ++ proc_name spec.now proc.0 }
    ensures short { length line.new ≤ length line.old + 17 }
{
    line.text(b" ");
    line.text(spec.proc_name(proc).as_bytes());
}

// Returns the label of a row in a lane, which has at most 33 bytes.
fn make_label(spec: &Spec, lane: Lane, row: &Row) -> Line
    requires lane { IsLane lane }
    ensures text { result ≡ label_of spec.now lane row.now }
    ensures short { length result ≤ 33 }
{
    let mut line = Line::new();
    match lane {
        Lane::Configuration => line.text(b"stable"),
        Lane::Factor(i) => line.text(value_in(spec, i, row).as_bytes()),
        Lane::Processor(_) => line.text(b"up"),
        Lane::Application(a) => {
            let kind = spec.kind_of_app(AppId(a));
            add_act_label(&mut line, spec, kind, &row.acts[usize::from(a)]);
        }
    }
    line
}

fn add_act_label(line: &mut Line, spec: &Spec, kind: KindId, act: &Act)
    requires { length line.old + 33 ≤ MAX_LINE_BYTES }
    ensures text { line.new ≡ line.old ++ act_label spec.now kind.0 act.now }
    ensures short { length line.new ≤ length line.old + 33 }
{
    match act {
        Act::Ran(mode, proc) => {
            line.text(name_of_mode(kind, *mode).as_bytes());
            add_proc(line, spec, *proc);
        }
        Act::Halting(_, _, _) => line.text(b"halting"),
        Act::Held => line.text(b"held"),
        Act::Preparing(_, _, _) => line.text(b"preparing"),
        Act::Initialising(_, _, _) => line.text(b"initialising"),
        Act::Off => line.text(b"off"),
        Act::Lost => line.text(b"lost"),
    }
}
