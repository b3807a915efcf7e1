//! The lines of a row: the first line, and a line for each application.

ghost use Rattle.std.specs.Prelude.{◌≡◌, ◌+◌, ◌*◌, ◌≤◌, ◌++◌, [], length, codes, if◌then◌else◌};
ghost use Rattle.kind_table.specs.Names.{mode_text};
ghost use Rattle.trace_text.specs.Names.{conf_or_dash, values_named, further_joined};
ghost use Rattle.trace_text.specs.Text.{kernel_mode_text, values_text, up_text, world_text, row_line, phase_text, act_text, area_text, app_line};
ghost use Rattle.scram_types.specs.declared.limits.TheConstants.{MAX_LINE_BYTES};

use crate::lines::Line;
use kind_table::mode_name;
use scram_types::{
    Act, AppSpec, Area, ConfId, Factor, KMode, KindId, Mode, Name, ProcId, Row, Spec, World,
};

/// Returns the first line of a row: its frame, mode, environment and world.
pub fn make_row_line(spec: &Spec, row: &Row) -> Line
    ensures { result ≡ row_line spec.now row.now }
{
    let mut line = Line::new();
    line.text(b"frame ");
    line.number(row.frame);
    line.text(b" ");
    add_mode(&mut line, spec, &row.mode);
    line.text(b" env ");
    add_values(&mut line, spec, &row.env.factors);
    line.text(b" up ");
    add_up(&mut line, spec, row.env.up);
    line.text(b" world ");
    add_world(&mut line, &row.world);
    line.text(b"\n");
    line
}

/// Returns the line of an application in a row: its act and its area.
pub fn make_app_line(spec: &Spec, app: &AppSpec, act: &Act, area: &Area) -> Line
    ensures { result ≡ app_line spec.now app.now act.now area.now }
{
    let mut line = Line::new();
    line.text(b"app ");
    line.text(app.name.as_str().as_bytes());
    line.text(b" ");
    add_act(&mut line, spec, app.kind, act);
    line.text(b" :");
    add_area(&mut line, area);
    line.text(b"\n");
    line
}

#[tactic(auto, using(kind_table::proofs::ShortNames::mode_short))]
pub fn name_of_mode(kind: KindId, mode: Mode) -> &'static str
    ensures name { result.now ≡ mode_text kind.0 mode.0 }
    ensures short { length result.now ≤ 16 }
{
    match mode_name(kind, mode) {
        Some(name) => name,
        None => "",
    }
}

/// Appends the name of a configuration, or `-` if there is none.
pub fn add_conf_or_dash(line: &mut Line, spec: &Spec, conf: Option<ConfId>)
    requires { length line.old + 16 ≤ MAX_LINE_BYTES }
    ensures text { line.new ≡ line.old ++ conf_or_dash spec.now conf }
    ensures short { length line.new ≤ length line.old + 16 }
{
    match conf {
        Some(conf) => line.text(spec.conf_name(conf).as_bytes()),
        None => line.text(b"-"),
    }
}

fn add_mode(line: &mut Line, spec: &Spec, mode: &KMode)
    requires { length line.old + 68 ≤ MAX_LINE_BYTES }
    ensures text { line.new ≡ line.old ++ kernel_mode_text spec.now mode.now }
    ensures short { length line.new ≤ length line.old + 68 }
{
    match mode {
        KMode::Stable(conf) => {
            line.text(b"stable ");
            line.text(spec.conf_name(*conf).as_bytes());
        }
        KMode::Moving {
            from,
            halting,
            to,
            since,
        } => {
            line.text(b"moving ");
            line.text(spec.conf_name(*from).as_bytes());
            line.text(b" ");
            add_conf_or_dash(line, spec, *halting);
            line.text(b" ");
            line.text(spec.conf_name(*to).as_bytes());
            line.text(b" ");
            line.number(*since);
        }
    }
}

fn add_values(line: &mut Line, spec: &Spec, values: &[u8; 6])
    requires { length line.old + 102 ≤ MAX_LINE_BYTES }
    ensures text { line.new ≡ line.old ++ values_text spec.now values.now }
    ensures short { length line.new ≤ length line.old + 102 }
{
    match spec.factors.items() {
        [] => line.text(b"-"),
        [first, rest @ ..] => {
            line.text(first.value_name(values[0]).as_bytes());
            add_further_values(line, rest, values);
        }
    }
}

fn add_further_values(line: &mut Line, factors: &[Factor], values: &[u8; 6])
    requires room { length line.old + 17 * length factors.now ≤ MAX_LINE_BYTES }
    requires few { length factors.now ≤ 5 }
    ensures text { line.new ≡ line.old ++ further_joined (values_named factors.now 1 values.now) }
    ensures short { length line.new ≤ length line.old + 17 * length factors.now }
{
    for (i, factor) in factors.iter().enumerate() {
        line.text(b",");
        line.text(factor.value_name(values[i + 1]).as_bytes());
    }
}

/// Appends the names of the processors that are up, joined by commas, or `-` if no processor is up.
pub fn add_up(line: &mut Line, spec: &Spec, up: u8)
    requires { length line.old + 137 ≤ MAX_LINE_BYTES }
    ensures text { line.new ≡ line.old ++ up_text spec.now up }
    ensures short { length line.new ≤ length line.old + 137 }
{
    let mut left = up;
    let mut shown = false;
    for proc in spec.procs.items() {
        if left % 2 == 1 {
            add_listed(line, shown, &proc.name);
            shown = true;
        }
        left /= 2;
    }
    if !shown {
        line.text(b"-");
    }
}

fn add_listed(line: &mut Line, further_joined: bool, name: &Name)
    requires { length line.old + 17 ≤ MAX_LINE_BYTES }
    ensures text { line.new ≡ line.old ++ (if further_joined then codes "," else []) ++ name.now }
    ensures short { length line.new ≤ length line.old + 17 }
{
    if further_joined {
        line.text(b",");
    }
    line.text(name.as_str().as_bytes());
}

fn add_world(line: &mut Line, world: &World)
    requires { length line.old + 83 ≤ MAX_LINE_BYTES }
    ensures text { line.new ≡ line.old ++ world_text world.now }
    ensures short { length line.new ≤ length line.old + 83 }
{
    line.signed(&world.alt);
    line.text(b" ");
    line.signed(&world.climb);
    line.text(b" ");
    line.signed(&world.heading);
    line.text(b" ");
    line.signed(&world.bank);
}

fn add_phase(line: &mut Line, spec: &Spec, k: u8, n: u8, proc: ProcId)
    requires { length line.old + 38 ≤ MAX_LINE_BYTES }
    ensures text { line.new ≡ line.old ++ phase_text spec.now k n proc.0 }
    ensures short { length line.new ≤ length line.old + 38 }
{
    line.number(u32::from(k));
    line.text(b"/");
    line.number(u32::from(n));
    line.text(b" ");
    line.text(spec.proc_name(proc).as_bytes());
}

fn add_act(line: &mut Line, spec: &Spec, kind: KindId, act: &Act)
    requires { length line.old + 51 ≤ MAX_LINE_BYTES }
    ensures text { line.new ≡ line.old ++ act_text spec.now kind.0 act.now }
    ensures short { length line.new ≤ length line.old + 51 }
{
    match act {
        Act::Ran(mode, proc) => {
            line.text(b"ran ");
            line.text(name_of_mode(kind, *mode).as_bytes());
            line.text(b" ");
            line.text(spec.proc_name(*proc).as_bytes());
        }
        Act::Halting(k, n, proc) => {
            line.text(b"halting ");
            add_phase(line, spec, *k, *n, *proc);
        }
        Act::Held => line.text(b"held"),
        Act::Preparing(k, n, proc) => {
            line.text(b"preparing ");
            add_phase(line, spec, *k, *n, *proc);
        }
        Act::Initialising(k, n, proc) => {
            line.text(b"initialising ");
            add_phase(line, spec, *k, *n, *proc);
        }
        Act::Off => line.text(b"off"),
        Act::Lost => line.text(b"lost"),
    }
}

fn add_area(line: &mut Line, area: &Area)
    requires { length line.old + 168 ≤ MAX_LINE_BYTES }
    ensures text { line.new ≡ line.old ++ area_text area.now }
    ensures short { length line.new ≤ length line.old + 168 }
{
    for word in area {
        line.text(b" ");
        line.signed(word);
    }
}
