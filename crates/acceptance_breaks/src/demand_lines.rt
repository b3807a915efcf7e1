//! The lines about demands, in pieces that are made without allocating.

ghost use Rattle.std.specs.Prelude.{◌≡◌, ◌+◌, ◌<◌, ◌≤◌, ◌++◌, [], codes, length, if◌then◌else◌};
ghost use Rattle.scram_types.specs.Bits.{has_bit};
ghost use Rattle.scram_types.specs.Lookups.{conf_name};
ghost use Rattle.scram_types.specs.declared.limits.TheConstants.{MAX_LINE_BYTES};
ghost use Rattle.choice_table.specs.Demands.{is_empty_or_holds, is_placed};
ghost use Rattle.choice_table.specs.Environments.{IsEnv};
ghost use Rattle.acceptance_breaks.specs.Lines.{app_missed_text, demand_piece, first_off_missed, first_on_missed, is_off_missed, is_on_missed, members_text, missed_piece, missed_text, none_of_text, off_missed_text, whereabouts_text};

use crate::choice_lines::add_situation;
use choice_table::choose;
use choice_table::demands::{is_empty_or_holds, is_placed};
use form_base::lines::demand_name;
use scram_types::bits::{has_bit, is_in};
use scram_types::{AppId, ConfId, Demand, Env, Place, Spec};
use trace_text::lines::Line;
use trace_text::row_lines::name_of_mode;

// Returns the start of a line, with demand `k`, configuration `c`, environment `env` and the choice from `c` in
// `env`.
pub(crate) fn make_demand_piece(spec: &Spec, c: ConfId, k: u32, env: &Env) -> Line
    requires { IsEnv spec.now env.now }
    ensures { result ≡ demand_piece spec.now c k env.now }
{
    let mut line = Line::new();
    line.text(b"  demand ");
    line.text(demand_name(spec, k).as_bytes());
    line.text(b" ");
    add_situation(&mut line, spec, c, env);
    line
}

// Returns the end of a line, which shows how the configuration chosen from `c` in environment `env` fails demand `k`.
pub(crate) fn make_missed_piece(spec: &Spec, c: ConfId, k: u32, env: &Env) -> Line
    ensures { result ≡ missed_piece spec.now c k env.now }
{
    let mut line = Line::new();
    if let Some(demand) = spec.demands.items().get(k as usize) {
        add_missed(&mut line, spec, demand, choose(spec, c, env));
    }
    line.text(b"\n");
    line
}

// Appends the text that shows how configuration `c` fails a demand.
fn add_missed(line: &mut Line, spec: &Spec, demand: &Demand, c: ConfId)
    requires { length line.old + 300 ≤ MAX_LINE_BYTES }
    ensures text { line.new ≡ line.old ++ missed_text spec.now demand.now c }
    ensures short { length line.new ≤ length line.old + 300 }
{
    if is_empty_or_holds(demand.to, c) {
        add_app_missed(line, spec, demand, c);
    } else {
        add_none_of(line, spec, demand);
    }
}

// Appends the text that the chosen configuration is none of the demand's configurations, with the names of the
// demand's configurations.
fn add_none_of(line: &mut Line, spec: &Spec, demand: &Demand)
    requires { length line.old + 240 ≤ MAX_LINE_BYTES }
    ensures text { line.new ≡ line.old ++ none_of_text spec.now demand.now }
    ensures short { length line.new ≤ length line.old + 240 }
{
    line.text(b", which is none of ");
    add_members(line, spec, demand.to);
}

// Appends the names of the configurations of a set, separated by a comma and a space.
fn add_members(line: &mut Line, spec: &Spec, set: u16)
    requires { length line.old + 216 ≤ MAX_LINE_BYTES }
    ensures text { line.new ≡ line.old ++ members_text spec.now set }
    ensures short { length line.new ≤ length line.old + 216 }
{
    let mut is_further = false;
    for c in 0..spec.count_confs() {
        if is_in(set, c) {
            add_member(line, spec, is_further, ConfId(c));
            is_further = true;
        }
    }
}

fn add_member(line: &mut Line, spec: &Spec, is_further: bool, c: ConfId)
    requires { length line.old + 18 ≤ MAX_LINE_BYTES }
    ensures text { line.new ≡ line.old ++ ((if is_further then codes ", " else []) ++ conf_name spec.now c.0) }
    ensures short { length line.new ≤ length line.old + 18 }
{
    if is_further {
        line.text(b", ");
    }
    line.text(spec.conf_name(c).as_bytes());
}

// Appends the text for the first application that the demand requires to be on, but that is off in configuration `c`
// or in a mode that the demand does not allow. If there is none, appends the text for the first application that the
// demand requires to be off, but that is on in `c`, if there is one.
fn add_app_missed(line: &mut Line, spec: &Spec, demand: &Demand, c: ConfId)
    requires { length line.old + 60 ≤ MAX_LINE_BYTES }
    ensures text { line.new ≡ line.old ++ app_missed_text spec.now demand.now c (first_on_missed spec.now demand.now c) }
    ensures short { length line.new ≤ length line.old + 60 }
{
    match first_on_missed(spec, demand, c) {
        Some(a) => {
            line.text(b", in which ");
            add_whereabouts(line, spec, AppId(a), spec.place_of(c, AppId(a)));
        }
        None => add_off_missed(line, spec, first_off_missed(spec, demand, c)),
    }
}

fn add_whereabouts(line: &mut Line, spec: &Spec, app: AppId, place: Option<Place>)
    requires { length line.old + 40 ≤ MAX_LINE_BYTES }
    ensures text { line.new ≡ line.old ++ whereabouts_text spec.now app.0 place }
    ensures short { length line.new ≤ length line.old + 40 }
{
    line.text(spec.app_name(app).as_bytes());
    match place {
        Some(place) => {
            line.text(b" is in ");
            line.text(name_of_mode(spec.kind_of_app(app), place.mode).as_bytes());
        }
        None => line.text(b" is off"),
    }
}

fn add_off_missed(line: &mut Line, spec: &Spec, missed: Option<u8>)
    requires { length line.old + 40 ≤ MAX_LINE_BYTES }
    ensures text { line.new ≡ line.old ++ off_missed_text spec.now missed }
    ensures short { length line.new ≤ length line.old + 40 }
{
    if let Some(a) = missed {
        line.text(b", in which ");
        line.text(spec.app_name(AppId(a)).as_bytes());
        line.text(b" is on");
    }
}

// Returns the first application that the demand requires to be on, but that is off in configuration `c` or in a mode
// that the demand does not allow. Returns `None` if there is none.
fn first_on_missed(spec: &Spec, demand: &Demand, c: ConfId) -> Option<u8>
    ensures { result ≡ first_on_missed spec.now demand.now c }
{
    for a in 0..spec.count_apps() {
        if is_on_missed(spec, demand, c, a) {
            return Some(a);
        }
    }
    None
}

fn is_on_missed(spec: &Spec, demand: &Demand, c: ConfId, a: u8) -> bool
    ensures { result ≡ is_on_missed spec.now demand.now c a }
{
    !is_placed(demand.modes_on(AppId(a)), spec.place_of(c, AppId(a)))
}

// Returns the first application that the demand requires to be off, but that is on in configuration `c`, or `None` if
// there is none.
fn first_off_missed(spec: &Spec, demand: &Demand, c: ConfId) -> Option<u8>
    ensures { result ≡ first_off_missed spec.now demand.now c }
{
    for a in 0..spec.count_apps() {
        if is_off_missed(spec, demand, c, a) {
            return Some(a);
        }
    }
    None
}

fn is_off_missed(spec: &Spec, demand: &Demand, c: ConfId, a: u8) -> bool
    ensures { result ≡ is_off_missed spec.now demand.now c a }
{
    has_bit(demand.off, a) && spec.is_on(c, AppId(a))
}
