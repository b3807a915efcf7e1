//! The text of the places at which a condition does not hold.

ghost use Rattle.std.specs.Prelude.{◌≡◌, ◌++◌, IfOk, OnOk, codes, decimal, take};
ghost use Rattle.choice_table.specs.Environments.{IsEnv};
ghost use Rattle.scram_types.specs.Specification.{Each, IsSpec};
ghost use Rattle.acceptance_breaks.specs.declared.texts.TheConstants.{MAX_BREAK_LINES};
ghost use Rattle.acceptance_breaks.specs.Lines.{break_line, demand_line, lacking_line, start_line, unmet_line};
ghost use Rattle.condition_breaks.specs.Shown.{AnyEnvIsOf};
ghost use Rattle.acceptance_breaks.specs.Texts.{breaks_text, lines_text, more_text, shown_breaks_text};

use crate::choice_lines::{make_end, make_situation_piece, make_unmet_piece};
use crate::demand_lines::{make_demand_piece, make_missed_piece};
use crate::limit_lines::{make_missed_line, make_unheld_line};
use crate::lines::{
    add_wide, make_empty_line, make_indent, make_load_line, make_need_line, make_states_line,
    make_twin_line, make_window_line,
};
use condition_breaks::{Break, breaks_of};
use coverage_check::choosing::Requirement;
use scram_types::{ConfId, Env, NoMemory, Spec};
use spec_forms::make_bound_line;
use std::alloc::Global;
use trace_text::lines::Line;

/// The maximum number of places for which a line is shown.
pub const MAX_BREAK_LINES: usize = 64;

/// Returns a line for each place at which the condition of acceptance with the number `condition` does not hold, in
/// order. If there are more than [`MAX_BREAK_LINES`] places, only the first [`MAX_BREAK_LINES`] places have a line,
/// and a last line gives the number of the other places. The text is empty if the condition holds or its number is
/// not 1 to 13.
///
/// # Errors
///
/// Returns an error if memory runs out.
pub fn make_breaks(alloc: Global, spec: &Spec, condition: u8) -> Result<Vec<u8>, NoMemory>
    ensures { IfOk result (λ text. text.items ≡ breaks_text spec.now condition) }
{
    let _known = spec.count_confs();
    let found = breaks_of(alloc, spec, condition)?;
    make_text(alloc, spec, &found)
}

fn make_text(alloc: Global, spec: &Spec, found: &[Break]) -> Result<Vec<u8>, NoMemory>
    requires known { IsSpec spec.now }
    requires shown { Each (AnyEnvIsOf spec.now) found.now }
    ensures { IfOk result (λ text. text.items ≡ shown_breaks_text spec.now found.now) }
{
    let mut text = Vec::new(alloc);
    add_lines(&mut text, spec, first_of(found))?;
    add_more(&mut text, found.len())?;
    Ok(text)
}

// Returns the places that have a line of their own: the first `MAX_BREAK_LINES` places, or all places if there are
// fewer.
fn first_of(found: &[Break]) -> &[Break]
    ensures { result.now ≡ take MAX_BREAK_LINES found.now }
{
    &found[..found.len().min(MAX_BREAK_LINES)]
}

fn add_lines(text: &mut Vec<u8>, spec: &Spec, found: &[Break]) -> Result<(), NoMemory>
    requires known { IsSpec spec.now }
    requires shown { Each (AnyEnvIsOf spec.now) found.now }
    ensures { OnOk result (text.new.items ≡ text.old.items ++ lines_text spec.now found.now) }
{
    for broken in found {
        add_line(text, spec, broken)?;
    }
    Ok(())
}

fn add_line(text: &mut Vec<u8>, spec: &Spec, broken: &Break) -> Result<(), NoMemory>
    requires known { IsSpec spec.now }
    requires shown { AnyEnvIsOf spec.now broken.now }
    ensures { OnOk result (text.new.items ≡ text.old.items ++ break_line spec.now broken.now) }
{
    match broken {
        Break::NeedOff(c, a, b) => add(text, &make_need_line(spec, *c, *a, *b)),
        Break::ManyStates => add(text, &make_states_line(spec)),
        Break::NothingOn(c) => add(text, &make_empty_line(spec, *c)),
        Break::SameAgain(c, d) => add(text, &make_twin_line(spec, *c, *d)),
        Break::Overloaded(c, p) => add(text, &make_load_line(spec, *c, *p)),
        Break::Unmet(asked, c, env) => add_unmet(text, spec, *asked, *c, env),
        Break::StartLeft => add_start(text, spec),
        Break::BoundLacking(i, j) => add_lacking(text, spec, *i, *j),
        Break::WindowShort => add(text, &make_window_line(spec)),
        Break::Unheld(unheld) => add(text, &make_unheld_line(spec, unheld)),
        Break::PreconditionMissed(k) => add(text, &make_missed_line(spec, *k)),
        Break::DemandMissed(c, k, env) => add_missed(text, spec, *c, *k, env),
    }
}

fn add_unmet(
    text: &mut Vec<u8>,
    spec: &Spec,
    asked: Requirement,
    c: ConfId,
    env: &Env,
) -> Result<(), NoMemory>
    requires { IsEnv spec.now env.now }
    ensures { OnOk result (text.new.items ≡ text.old.items ++ unmet_line spec.now asked c env.now) }
{
    let situation = make_situation_piece(spec, c, env);
    add_both(text, &situation, &make_unmet_piece(spec, asked, c, env))
}

fn add_start(text: &mut Vec<u8>, spec: &Spec) -> Result<(), NoMemory>
    requires { IsSpec spec.now }
    ensures { OnOk result (text.new.items ≡ text.old.items ++ start_line spec.now) }
{
    let situation = make_situation_piece(spec, spec.start, &spec.opening_env());
    add_both(text, &situation, &make_end())
}

fn add_lacking(text: &mut Vec<u8>, spec: &Spec, from: ConfId, to: ConfId) -> Result<(), NoMemory>
    ensures { OnOk result (text.new.items ≡ text.old.items ++ lacking_line spec.now from to) }
{
    add_both(text, &make_indent(), &make_bound_line(spec, from, to))
}

fn add_missed(text: &mut Vec<u8>, spec: &Spec, c: ConfId, k: u32, env: &Env) -> Result<(), NoMemory>
    requires { IsEnv spec.now env.now }
    ensures { OnOk result (text.new.items ≡ text.old.items ++ demand_line spec.now c k env.now) }
{
    let chosen = make_demand_piece(spec, c, k, env);
    add_both(text, &chosen, &make_missed_piece(spec, c, k, env))
}

fn add(text: &mut Vec<u8>, line: &Line) -> Result<(), NoMemory>
    ensures { OnOk result (text.new.items ≡ text.old.items ++ line.now) }
{
    text.extend_from_slice(line.as_bytes())?;
    Ok(())
}

fn add_both(text: &mut Vec<u8>, piece: &Line, end: &Line) -> Result<(), NoMemory>
    ensures { OnOk result (text.new.items ≡ text.old.items ++ piece.now ++ end.now) }
{
    add(text, piece)?;
    add(text, end)
}

// Appends the line with the number of places that have no line of their own, given the number `count` of all places.
// Appends nothing if each place has a line.
fn add_more(text: &mut Vec<u8>, count: usize) -> Result<(), NoMemory>
    ensures { OnOk result (text.new.items ≡ text.old.items ++ more_text count) }
{
    if count <= MAX_BREAK_LINES {
        return Ok(());
    }
    add(text, &make_more_line(count - MAX_BREAK_LINES))
}

fn make_more_line(further: usize) -> Line
    ensures { result ≡ codes "  and " ++ decimal further ++ codes " more\n" }
{
    let mut line = Line::new();
    line.text(b"  and ");
    add_wide(&mut line, further as u64);
    line.text(b" more\n");
    line
}
