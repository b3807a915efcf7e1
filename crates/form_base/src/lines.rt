//! The lines of refusals that several forms of the command print, and the parts of these lines. All are made without
//! allocation.

ghost use Rattle.std.specs.Prelude.{◌≡◌, ◌+◌, ◌*◌, ◌≤◌, ◌++◌, [], ◌<◌, ◌^◌, length, codes, if◌then◌else◌};
ghost use Rattle.scram_types.specs.declared.limits.TheConstants.{MAX_LINE_BYTES};
ghost use Rattle.trace_text.specs.Names.{further_joined};
ghost use Rattle.form_base.specs.Lines.{added, counts_text, cycle_text, demand_name, env_or_dash, env_text, factors_text, names_down, other_text, rule_text, shown_line, specification_line};

use coverage_check::{Other, Shown};
use scram_doc::Path;
use scram_types::{Env, Factor, Flown, Name, Spec};
use spec_reading::SpecFault;
use trace_text::lines::Line;
use trace_text::row_lines::add_conf_or_dash;

/// Returns the line for a specification document that breaks a rule. The line has the rule's number and the path at
/// which the rule is broken. If `fault` names the applications in a cycle of needs, the line also has their names.
pub fn make_specification_line(fault: &SpecFault) -> Line
    ensures { result ≡ specification_line fault.now }
{
    let mut line = Line::new();
    line.text(b"refused: specification");
    add_rule(&mut line, fault.rule, &fault.path);
    add_cycle(&mut line, fault.names.as_slice());
    line.text(b"\n");
    line
}

/// Returns the line for a specification that is not accepted. The line has the number of the broken condition,
/// followed by the configuration, the environment and the value of `shown.other`. Each of these three is `-` if there
/// is none.
pub fn make_shown_line(spec: &Spec, shown: &Shown) -> Line
    ensures { result ≡ shown_line spec.now shown.now }
{
    let mut line = Line::new();
    line.text(b"refused: A");
    line.number(u32::from(shown.condition));
    line.text(b" ");
    add_conf_or_dash(&mut line, spec, shown.conf);
    line.text(b" ");
    add_env_or_dash(&mut line, spec, &shown.env);
    line.text(b" ");
    add_other(&mut line, spec, &shown.other);
    line.text(b"\n");
    line
}

pub fn add_counts(line: &mut Line, flown: &Flown)
    requires room { length line.old + 46 ≤ MAX_LINE_BYTES }
    requires rows { length flown.now.rows < 2 ^ 32 }
    requires reports { length flown.now.reports < 2 ^ 32 }
    ensures text { line.new ≡ line.old ++ counts_text flown.now.rows flown.now.reports }
    ensures short { length line.new ≤ length line.old + 46 }
{
    line.text(b" frames ");
    line.number(flown.rows.items().len() as u32);
    line.text(b" reconfigurations ");
    line.number(flown.reports.items().len() as u32);
}

pub fn add_rule(line: &mut Line, rule: u8, path: &Path)
    requires { length line.old + 84 ≤ MAX_LINE_BYTES }
    ensures text { line.new ≡ line.old ++ rule_text rule path.now }
    ensures short { length line.new ≤ length line.old + 84 }
{
    line.text(b" rule ");
    line.number(u32::from(rule));
    line.text(b" at ");
    line.text(path.as_str().as_bytes());
}

fn add_cycle(line: &mut Line, names: &[Name])
    requires room { length line.old + 150 ≤ MAX_LINE_BYTES }
    requires few { length names.now ≤ 8 }
    ensures text { line.new ≡ line.old ++ cycle_text names.now }
    ensures short { length line.new ≤ length line.old + 150 }
{
    match names {
        [] => {}
        [first, rest @ ..] => {
            line.text(b" cycle ");
            line.text(first.as_str().as_bytes());
            add_further(line, rest);
        }
    }
}

fn add_further(line: &mut Line, names: &[Name])
    requires { length line.old + 17 * length names.now ≤ MAX_LINE_BYTES }
    ensures text { line.new ≡ line.old ++ further_joined names.now }
    ensures short { length line.new ≤ length line.old + 17 * length names.now }
{
    for name in names {
        line.text(b",");
        line.text(name.as_str().as_bytes());
    }
}

fn add_env_or_dash(line: &mut Line, spec: &Spec, env: &Option<Env>)
    requires { length line.old + 346 ≤ MAX_LINE_BYTES }
    ensures text { line.new ≡ line.old ++ env_or_dash spec.now env.now }
    ensures short { length line.new ≤ length line.old + 346 }
{
    match env {
        Some(env) => add_env(line, spec, env),
        None => line.text(b"-"),
    }
}

/// Appends the text of an environment: each factor with its value, and the names of the processors that are down.
pub fn add_env(line: &mut Line, spec: &Spec, env: &Env)
    requires { length line.old + 346 ≤ MAX_LINE_BYTES }
    ensures text { line.new ≡ line.old ++ env_text spec.now env.now }
    ensures short { length line.new ≤ length line.old + 346 }
{
    add_factors(line, spec.factors.items(), &env.factors);
    line.text(b"down=");
    add_down(line, spec, env.up);
}

fn add_factors(line: &mut Line, factors: &[Factor], values: &[u8; 6])
    requires room { length line.old + 34 * length factors.now ≤ MAX_LINE_BYTES }
    requires few { length factors.now ≤ 6 }
    ensures text { line.new ≡ line.old ++ factors_text factors.now 0 values.now }
    ensures short { length line.new ≤ length line.old + 34 * length factors.now }
{
    for (i, factor) in factors.iter().enumerate() {
        line.text(factor.name.as_str().as_bytes());
        line.text(b"=");
        line.text(factor.value_name(values[i]).as_bytes());
        line.text(b",");
    }
}

/// Appends the names of the processors that are not in the set `up`, joined by pluses, or `-` if there are none.
pub fn add_down(line: &mut Line, spec: &Spec, up: u8)
    requires { length line.old + 137 ≤ MAX_LINE_BYTES }
    ensures text { line.new ≡ line.old ++ added (names_down spec.now.procs up) }
    ensures short { length line.new ≤ length line.old + 137 }
{
    let mut left = up;
    let mut shown = false;
    for proc in spec.procs.items() {
        if left % 2 == 0 {
            add_joined(line, shown, &proc.name);
            shown = true;
        }
        left /= 2;
    }
    if !shown {
        line.text(b"-");
    }
}

fn add_joined(line: &mut Line, is_further: bool, name: &Name)
    requires { length line.old + 17 ≤ MAX_LINE_BYTES }
    ensures text { line.new ≡ line.old ++ (if is_further then codes "+" else []) ++ name.now }
    ensures short { length line.new ≤ length line.old + 17 }
{
    if is_further {
        line.text(b"+");
    }
    line.text(name.as_str().as_bytes());
}

fn add_other(line: &mut Line, spec: &Spec, other: &Other)
    requires { length line.old + 27 ≤ MAX_LINE_BYTES }
    ensures text { line.new ≡ line.old ++ other_text spec.now other.now }
    ensures short { length line.new ≤ length line.old + 27 }
{
    match other {
        Other::Nothing => line.text(b"-"),
        Other::App(app) => line.text(spec.app_name(*app).as_bytes()),
        Other::Proc(proc) => line.text(spec.proc_name(*proc).as_bytes()),
        Other::Conf(conf) => line.text(spec.conf_name(*conf).as_bytes()),
        Other::Count(count) => line.number(*count),
        Other::Least(target, frames) => {
            line.text(spec.conf_name(*target).as_bytes());
            line.text(b":");
            line.number(*frames);
        }
        Other::Item(place) => line.number(*place),
        Other::Demand(place) => line.text(demand_name(spec, *place).as_bytes()),
    }
}

/// Returns the name of demand `place`, which has at most 16 bytes, or the empty text if there is no such demand.
pub fn demand_name(spec: &Spec, place: u32) -> &str
    ensures name { result.now ≡ demand_name spec.now place }
    ensures short { length result.now ≤ 16 }
{
    match spec.demands.items().get(place as usize) {
        Some(demand) => demand.name.as_str(),
        None => "",
    }
}
