//! The lines about the choices of the table, in pieces that are made without allocating.

ghost use Rattle.std.specs.Prelude.{◌≡◌, ◌+◌, ◌≤◌, ◌++◌, codes, length};
ghost use Rattle.scram_types.specs.declared.limits.TheConstants.{MAX_LINE_BYTES};
ghost use Rattle.choice_table.specs.Environments.{IsEnv};
ghost use Rattle.acceptance_breaks.specs.Lines.{chooses_text, chosen_text, fitting_text, situation_piece, situation_text, unmet_piece, unsettled_piece};

use choice_table::choose;
use coverage_check::choosing::Requirement;
use cube_cover::first_rule;
use form_base::lines::add_env;
use scram_types::{ConfId, Env, Spec};
use spec_forms::choice_forms::make_needs_line;
use trace_text::lines::Line;

// Returns the start of a line, with configuration `c`, environment `env` and the choice from `c` in `env`.
pub(crate) fn make_situation_piece(spec: &Spec, c: ConfId, env: &Env) -> Line
    requires { IsEnv spec.now env.now }
    ensures { result ≡ situation_piece spec.now c env.now }
{
    let mut line = Line::new();
    line.text(b"  ");
    add_situation(&mut line, spec, c, env);
    line
}

// Appends the text of configuration `c`, environment `env` and the choice from `c` in `env`.
pub(crate) fn add_situation(line: &mut Line, spec: &Spec, c: ConfId, env: &Env)
    requires env { IsEnv spec.now env.now }
    requires room { length line.old + 420 ≤ MAX_LINE_BYTES }
    ensures text { line.new ≡ line.old ++ situation_text spec.now c env.now }
    ensures short { length line.new ≤ length line.old + 420 }
{
    line.text(b"from ");
    line.text(spec.conf_name(c).as_bytes());
    line.text(b" in ");
    add_env(line, spec, env);
    add_chosen(line, spec, c, env);
}

// Appends the text of the first rule that fits configuration `c` in environment `env`, and of the rule's target, or
// the text that no rule fits.
fn add_chosen(line: &mut Line, spec: &Spec, c: ConfId, env: &Env)
    requires env { IsEnv spec.now env.now }
    requires room { length line.old + 41 ≤ MAX_LINE_BYTES }
    ensures text { line.new ≡ line.old ++ chosen_text spec.now c env.now }
    ensures short { length line.new ≤ length line.old + 41 }
{
    add_rule(line, spec, first_rule(spec, c, env));
}

fn add_rule(line: &mut Line, spec: &Spec, k: usize)
    requires { length line.old + 41 ≤ MAX_LINE_BYTES }
    ensures text { line.new ≡ line.old ++ fitting_text spec.now k }
    ensures short { length line.new ≤ length line.old + 41 }
{
    match spec.rules.items().get(k) {
        Some(rule) => add_chooses(line, spec, k as u32, rule.to),
        None => line.text(b" no rule fits"),
    }
}

fn add_chooses(line: &mut Line, spec: &Spec, k: u32, to: ConfId)
    requires { length line.old + 41 ≤ MAX_LINE_BYTES }
    ensures text { line.new ≡ line.old ++ chooses_text spec.now k to }
    ensures short { length line.new ≤ length line.old + 41 }
{
    line.text(b" rule ");
    line.number(k);
    line.text(b" chooses ");
    line.text(spec.conf_name(to).as_bytes());
}

// Returns the end of a line, which shows how the choice from configuration `c` in environment `env` fails the
// requirement `asked`. For the requirement `HasRule` the end is a line feed alone.
pub(crate) fn make_unmet_piece(spec: &Spec, asked: Requirement, c: ConfId, env: &Env) -> Line
    requires { IsEnv spec.now env.now }
    ensures { result ≡ unmet_piece spec.now asked c env.now }
{
    match asked {
        Requirement::HasRule => make_end(),
        Requirement::CanRun => make_needs_line(spec, env, first_rule(spec, c, env)),
        Requirement::Stays => make_unsettled_piece(spec, c, env),
    }
}

fn make_unsettled_piece(spec: &Spec, c: ConfId, env: &Env) -> Line
    requires { IsEnv spec.now env.now }
    ensures { result ≡ unsettled_piece spec.now c env.now }
{
    let mut line = Line::new();
    line.text(b", from which");
    add_chosen(&mut line, spec, choose(spec, c, env), env);
    line.text(b"\n");
    line
}

// Returns the end of a line, which is a line feed.
pub(crate) fn make_end() -> Line
    ensures { result ≡ codes "\n" }
{
    let mut line = Line::new();
    line.text(b"\n");
    line
}
