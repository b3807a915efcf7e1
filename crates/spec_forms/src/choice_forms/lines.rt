//! The lines that show choices, made without allocation.

ghost use Rattle.std.specs.Prelude.{◌≡◌, ◌+◌, ◌≤◌, ◌++◌, length};
ghost use Rattle.scram_types.specs.declared.limits.TheConstants.{MAX_LINE_BYTES};
ghost use Rattle.spec_forms.specs.choice_forms.Choosing.{choice_piece, is_placed_on, is_used, needs_piece, needs_text, spared, state_text};
ghost use Rattle.spec_forms.specs.choice_forms.Lines.{choice_line, ruled_text, rule_to_text};

use choice_table::runnable;
use flight_facts::differences::{add_difference, have_changed};
use form_base::lines::{add_down, add_env};
use scram_types::bits::has_bit;
use scram_types::{ConfId, Env, Place, Spec};
use trace_text::lines::Line;

/// Returns the line of rule `k` and configuration `from`. `count` is the number of environments in scope in which the
/// rule is the first that fits, and `first` is the first of these environments. If `k` is past the last rule, no rule
/// fits in these environments.
pub fn make_choice_line(spec: &Spec, from: ConfId, k: usize, count: u32, first: &Env) -> Line
    ensures { result ≡ choice_line spec.now from.0 k count first.now }
{
    let mut line = Line::new();
    line.text(b"choice ");
    line.text(spec.conf_name(from).as_bytes());
    add_rule(&mut line, spec, k);
    line.text(b" in ");
    line.number(count);
    line.text(b", first ");
    add_env(&mut line, spec, first);
    line.text(b"\n");
    line
}

fn add_rule(line: &mut Line, spec: &Spec, k: usize)
    requires { length line.old + 36 ≤ MAX_LINE_BYTES }
    ensures text { line.new ≡ line.old ++ ruled_text spec.now k }
    ensures short { length line.new ≤ length line.old + 36 }
{
    match spec.rules.items().get(k) {
        Some(rule) => add_target(line, spec, k as u32, rule.to),
        None => line.text(b" no rule"),
    }
}

fn add_target(line: &mut Line, spec: &Spec, k: u32, to: ConfId)
    requires { length line.old + 36 ≤ MAX_LINE_BYTES }
    ensures text { line.new ≡ line.old ++ rule_to_text spec.now k to }
    ensures short { length line.new ≤ length line.old + 36 }
{
    line.text(b" rule ");
    line.number(k);
    line.text(b" to ");
    line.text(spec.conf_name(to).as_bytes());
}

/// Returns the first piece of the line of the choice from configuration `c` in an environment. `k` is the index of
/// the first rule that fits, or the number of rules if no rule fits.
pub fn make_chosen_line(spec: &Spec, c: ConfId, env: &Env, k: usize) -> Line
    ensures { result ≡ choice_piece spec.now c env.now k }
{
    let mut line = Line::new();
    line.text(b"choice ");
    line.text(spec.conf_name(c).as_bytes());
    line.text(b" in ");
    add_state(&mut line, spec, env);
    add_rule(&mut line, spec, k);
    line
}

// Appends the difference between an environment and the opening environment of a flight, or `ok` if there is no
// difference.
fn add_state(line: &mut Line, spec: &Spec, env: &Env)
    requires { length line.old + 348 ≤ MAX_LINE_BYTES }
    ensures text { line.new ≡ line.old ++ state_text spec.now env.now }
    ensures short { length line.new ≤ length line.old + 348 }
{
    let opening = spec.opening_env();
    if have_changed(spec, &opening, env) {
        add_difference(line, spec, &opening, env);
    } else {
        line.text(b"ok");
    }
}

/// Returns the second piece of the line of a choice in environment `env`: the processors that the target of rule `k`
/// needs but that are down, and the line feed. If there is no rule `k`, the piece is only the line feed.
pub fn make_needs_line(spec: &Spec, env: &Env, k: usize) -> Line
    ensures { result ≡ needs_piece spec.now env.now k }
{
    let mut line = Line::new();
    if let Some(rule) = spec.rules.items().get(k) {
        add_needs(&mut line, spec, rule.to, env);
    }
    line.text(b"\n");
    line
}

fn add_needs(line: &mut Line, spec: &Spec, to: ConfId, env: &Env)
    requires { length line.old + 151 ≤ MAX_LINE_BYTES }
    ensures text { line.new ≡ line.old ++ needs_text spec.now to env.now }
    ensures short { length line.new ≤ length line.old + 151 }
{
    if !runnable(spec, to, env) {
        line.text(b", which needs ");
        add_down(line, spec, spared(spec, to, env));
    }
}

// Returns the set, as bits, of the processors that are up or that configuration `c` does not use.
fn spared(spec: &Spec, c: ConfId, env: &Env) -> u8
    ensures { result ≡ spared spec.now c env.now }
{
    let mut spared = 0;
    for p in 0..spec.procs.items().len() as u8 {
        if has_bit(env.up, p) || !is_used(spec, c, p) {
            spared += 1 << p;
        }
    }
    spared
}

fn is_used(spec: &Spec, c: ConfId, p: u8) -> bool
    ensures { result ≡ is_used spec.now c p }
{
    match spec.conf(c) {
        Some(conf) => conf.places.iter().any(|place| is_placed_on(place, p)),
        None => false,
    }
}

/// Returns `true` if there is a place and the place is on processor `p`.
pub fn is_placed_on(place: &Option<Place>, p: u8) -> bool
    ensures { result ≡ is_placed_on p place.now }
{
    match place {
        Some(place) => place.proc.0 == p,
        None => false,
    }
}
