//! The lines about invariants and preconditions, made without allocating.

ghost use Rattle.std.specs.Prelude.{◌≡◌, ◌+◌, ◌≤◌, ◌++◌, length};
ghost use Rattle.scram_types.specs.declared.limits.TheConstants.{MAX_LINE_BYTES};
ghost use Rattle.acceptance_breaks.specs.Lines.{intervals_text, limits_text, missed_line, missed_line_of, place_mode_text, subject_text, unheld_line, unheld_line_of, variable_text, way_text};

use crate::limits::{Limits, invariant_limits, precondition_limits};
use condition_breaks::ranges::range_on;
use condition_breaks::{Unheld, Way};
use flight_facts::extremes::add_extremes;
use kind_table::variable_name;
use scram_types::{AppId, Invariant, Place, Precondition, Spec};
use trace_text::lines::Line;
use trace_text::row_lines::name_of_mode;

// Returns the line for the invariant whose number is in `found`. The line has the interval that the invariant
// specifies, the interval that it needs, and the first way whose range the specified interval does not contain. The
// line is empty if there is no such invariant.
pub(crate) fn make_unheld_line(spec: &Spec, found: &Unheld) -> Line
    ensures { result ≡ unheld_line spec.now found.now }
{
    match spec.invariants.items().get(found.invariant as usize) {
        Some(inv) => make_unheld_line_of(spec, found, inv),
        None => Line::new(),
    }
}

fn make_unheld_line_of(spec: &Spec, found: &Unheld, inv: &Invariant) -> Line
    ensures { result ≡ unheld_line_of spec.now found.now inv.now }
{
    let mut line = Line::new();
    line.text(b"  invariant");
    add_limits(&mut line, spec, &invariant_limits(found, inv));
    add_way(&mut line, spec, &found.way);
    line.text(b" ");
    add_place(
        &mut line,
        spec,
        inv.app,
        spec.place_of(found.way.to, inv.app),
    );
    line.text(b" ");
    add_extremes(&mut line, &range_on(spec, inv, &found.way));
    line.text(b"\n");
    line
}

// Returns the line of precondition `k`, with the interval that the precondition specifies, the interval that it
// needs, and its configuration. The line is empty if there is no such precondition.
pub(crate) fn make_missed_line(spec: &Spec, k: u32) -> Line
    ensures { result ≡ missed_line spec.now k }
{
    match spec.preconditions.items().get(k as usize) {
        Some(pre) => make_missed_line_of(spec, k, pre),
        None => Line::new(),
    }
}

fn make_missed_line_of(spec: &Spec, k: u32, pre: &Precondition) -> Line
    ensures { result ≡ missed_line_of spec.now k pre.now }
{
    let mut line = Line::new();
    line.text(b"  precondition");
    add_limits(&mut line, spec, &precondition_limits(spec, k, pre));
    line.text(spec.conf_name(pre.conf).as_bytes());
    line.text(b" ");
    add_place(&mut line, spec, pre.app, spec.place_of(pre.conf, pre.app));
    line.text(b"\n");
    line
}

fn add_limits(line: &mut Line, spec: &Spec, limits: &Limits)
    requires { length line.old + 150 ≤ MAX_LINE_BYTES }
    ensures text { line.new ≡ line.old ++ limits_text spec.now limits.now }
    ensures short { length line.new ≤ length line.old + 150 }
{
    add_subject(line, spec, limits);
    add_intervals(line, limits);
}

// Appends the text of the number, the application and the variable of an invariant or a precondition.
fn add_subject(line: &mut Line, spec: &Spec, limits: &Limits)
    requires { length line.old + 50 ≤ MAX_LINE_BYTES }
    ensures text { line.new ≡ line.old ++ subject_text spec.now limits.now }
    ensures short { length line.new ≤ length line.old + 50 }
{
    line.text(b" ");
    line.number(limits.item);
    line.text(b" ");
    line.text(spec.app_name(limits.app).as_bytes());
    line.text(b" ");
    line.text(variable_text(spec, limits.app, limits.variable).as_bytes());
}

// Appends the text of the interval that is given and the interval that is needed.
fn add_intervals(line: &mut Line, limits: &Limits)
    requires { length line.old + 100 ≤ MAX_LINE_BYTES }
    ensures text { line.new ≡ line.old ++ intervals_text limits.now }
    ensures short { length line.new ≤ length line.old + 100 }
{
    line.text(b" ");
    add_extremes(line, &limits.given);
    line.text(b" needs ");
    add_extremes(line, &limits.needed);
    line.text(b": ");
}

// Returns the name of a variable of an application. The name has at most 16 bytes, and is empty if the application's
// kind does not use the variable.
#[tactic(auto, using(kind_table::proofs::ShortNames::variable_short))]
fn variable_text(spec: &Spec, app: AppId, variable: u8) -> &'static str
    ensures name { result.now ≡ variable_text spec.now app variable }
    ensures short { length result.now ≤ 16 }
{
    match variable_name(spec.kind_of_app(app), variable) {
        Some(name) => name,
        None => "",
    }
}

// Appends the text of a way from a configuration to one of its possible targets, or to itself: the name of the
// source, and the name of the target if the target is another configuration.
fn add_way(line: &mut Line, spec: &Spec, way: &Way)
    requires { length line.old + 35 ≤ MAX_LINE_BYTES }
    ensures text { line.new ≡ line.old ++ way_text spec.now way.now }
    ensures short { length line.new ≤ length line.old + 35 }
{
    line.text(spec.conf_name(way.from).as_bytes());
    if way.from.0 != way.to.0 {
        line.text(b" > ");
        line.text(spec.conf_name(way.to).as_bytes());
    }
}

// Appends the name of the application's mode at `place`, or `off` if there is no place.
fn add_place(line: &mut Line, spec: &Spec, app: AppId, place: Option<Place>)
    requires { length line.old + 16 ≤ MAX_LINE_BYTES }
    ensures text { line.new ≡ line.old ++ place_mode_text spec.now app place }
    ensures short { length line.new ≤ length line.old + 16 }
{
    match place {
        Some(place) => line.text(name_of_mode(spec.kind_of_app(app), place.mode).as_bytes()),
        None => line.text(b"off"),
    }
}
