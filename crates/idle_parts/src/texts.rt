//! The text of the idle parts of a specification.

ghost use Rattle.std.specs.Prelude.{◌≡◌, ◌<◌, ◌≤◌, ◌++◌, IfOk, OnOk, length};
ghost use Rattle.spec_forms.specs.choice_forms.Tables.{HasShares};
ghost use Rattle.coverage_check.specs.Timing.{asked_bounds};
ghost use Rattle.scram_types.specs.Specification.{IsDemand};
ghost use Rattle.spec_forms.specs.Bounds.{AreAskedBounds};
ghost use Rattle.idle_parts.specs.Chosen.{AreChoicesOf};
ghost use Rattle.idle_parts.specs.Lines.{pair_text};
ghost use Rattle.idle_parts.specs.Texts.{idle_app_text, idle_bound_text, idle_bound_text_at, idle_conf_text, idle_demand_text, idle_demand_text_at, idle_factor_text, idle_text, kind_lines, line_if, mode_line, idle_modes_text, idle_modes_text_of, part_count, idle_part_text, idle_proc_text, idle_rule_text};

use crate::choices::{Chosen, find_chosen, is_bound_idle, is_conf_idle, is_rule_idle};
use crate::lines::{PartKind, make_idle_line};
use crate::places::{is_app_idle, is_mode_idle, is_proc_idle};
use crate::wants::{is_demand_idle, is_factor_idle};
use cube_cover::Share;
use scram_types::{AppId, Bound, ConfId, Demand, FactorId, List, ModeSpec, NoMemory, ProcId, Spec};
use std::alloc::{AllocError, Global};
use trace_text::lines::Line;
use trace_text::row_lines::name_of_mode;

/// Returns the lines of the idle parts of a specification, kind by kind.
///
/// # Errors
///
/// Returns an error if memory runs out.
pub fn make_idle(alloc: Global, spec: &Spec) -> Result<Vec<u8>, NoMemory>
    ensures { IfOk result (λ text. text.items ≡ idle_text spec.now) }
{
    let chosen = find_chosen(alloc, spec)?;
    let mut text = Vec::new(alloc);
    add_all(&mut text, spec, &chosen)?;
    Ok(text)
}

fn add_all(text: &mut Vec<u8>, spec: &Spec, chosen: &Chosen) -> Result<(), AllocError>
    requires { AreChoicesOf spec.now chosen.now }
    ensures { OnOk result (text.new.items ≡ text.old.items ++ idle_text spec.now) }
{
    add_kind(text, spec, chosen, PartKind::Rule)?;
    add_kind(text, spec, chosen, PartKind::Conf)?;
    add_kind(text, spec, chosen, PartKind::Factor)?;
    add_kind(text, spec, chosen, PartKind::Bound)?;
    add_kind(text, spec, chosen, PartKind::Mode)?;
    add_kind(text, spec, chosen, PartKind::App)?;
    add_kind(text, spec, chosen, PartKind::Proc)?;
    add_kind(text, spec, chosen, PartKind::Demand)
}

// Appends the lines of the idle parts of a kind.
fn add_kind(
    text: &mut Vec<u8>,
    spec: &Spec,
    chosen: &Chosen,
    kind: PartKind,
) -> Result<(), AllocError>
    requires { AreChoicesOf spec.now chosen.now }
    ensures { OnOk result (text.new.items ≡ text.old.items ++ kind_lines spec.now kind) }
{
    for n in 0..part_count(spec, kind) {
        add_part(text, spec, chosen, kind, n)?;
    }
    Ok(())
}

fn part_count(spec: &Spec, kind: PartKind) -> u8
    ensures value { result ≡ part_count spec.now kind }
    ensures few { result ≤ 144 }
{
    let count = match kind {
        PartKind::Rule => spec.rules.items().len(),
        PartKind::Conf => spec.confs.items().len(),
        PartKind::Factor => spec.factors.items().len(),
        PartKind::Bound => spec.bounds.items().len(),
        PartKind::Mode => spec.apps.items().len(),
        PartKind::App => spec.apps.items().len(),
        PartKind::Proc => spec.procs.items().len(),
        PartKind::Demand => spec.demands.items().len(),
    };
    count as u8
}

// Appends the line of part number `n` of a kind, if the part is idle. For the kind `Mode`, appends the lines of the
// idle modes of application number `n`.
fn add_part(
    text: &mut Vec<u8>,
    spec: &Spec,
    chosen: &Chosen,
    kind: PartKind,
    n: u8,
) -> Result<(), AllocError>
    requires chosen { AreChoicesOf spec.now chosen.now }
    requires part { n < part_count spec.now kind }
    ensures { OnOk result (text.new.items ≡ text.old.items ++ idle_part_text spec.now kind n) }
{
    match kind {
        PartKind::Rule => add_rule(text, spec, &chosen.shares, n),
        PartKind::Conf => add_conf(text, spec, &chosen.sets, n),
        PartKind::Factor => add_factor(text, spec, FactorId(n)),
        PartKind::Bound => add_bound_at(text, spec, &chosen.sets, n),
        PartKind::Mode => add_modes_of(text, spec, AppId(n)),
        PartKind::App => add_app(text, spec, AppId(n)),
        PartKind::Proc => add_proc(text, spec, ProcId(n)),
        PartKind::Demand => add_demand_at(text, spec, n),
    }
}

fn add_rule(
    text: &mut Vec<u8>,
    spec: &Spec,
    shares: &[List<Share>],
    k: u8,
) -> Result<(), AllocError>
    requires shares { HasShares spec.now shares.now }
    requires rule { k < length spec.now.rules }
    ensures { OnOk result (text.new.items ≡ text.old.items ++ idle_rule_text spec.now k) }
{
    let mut number = Line::new();
    number.number(u32::from(k));
    add_if(
        text,
        is_rule_idle(spec, shares, k),
        PartKind::Rule,
        number.as_bytes(),
    )
}

fn add_conf(text: &mut Vec<u8>, spec: &Spec, sets: &[u16; 12], c: u8) -> Result<(), AllocError>
    requires sets { AreAskedBounds spec.now sets.now }
    requires conf { c < length spec.now.confs }
    ensures { OnOk result (text.new.items ≡ text.old.items ++ idle_conf_text spec.now c) }
{
    let name = spec.conf_name(ConfId(c)).as_bytes();
    add_if(text, is_conf_idle(spec, sets, c), PartKind::Conf, name)
}

fn add_factor(text: &mut Vec<u8>, spec: &Spec, factor: FactorId) -> Result<(), AllocError>
    ensures { OnOk result (text.new.items ≡ text.old.items ++ idle_factor_text spec.now factor.0) }
{
    let name = spec.factor_name(factor).as_bytes();
    add_if(text, is_factor_idle(spec, factor), PartKind::Factor, name)
}

fn add_bound_at(text: &mut Vec<u8>, spec: &Spec, sets: &[u16; 12], k: u8) -> Result<(), AllocError>
    requires { AreAskedBounds spec.now sets.now }
    ensures { OnOk result (text.new.items ≡ text.old.items ++ idle_bound_text_at spec.now k) }
{
    match spec.bounds.items().get(usize::from(k)) {
        Some(bound) => add_bound(text, spec, sets[usize::from(bound.from.0)], bound),
        None => Ok(()),
    }
}

fn add_bound(text: &mut Vec<u8>, spec: &Spec, set: u16, bound: &Bound) -> Result<(), AllocError>
    requires set { set ≡ asked_bounds spec.now bound.now.from }
    requires to { bound.now.to.0 < length spec.now.confs }
    requires few { bound.now.to.0 < 12 }
    ensures { OnOk result (text.new.items ≡ text.old.items ++ idle_bound_text spec.now bound.now) }
{
    let pair = make_pair(spec, bound);
    add_if(
        text,
        is_bound_idle(spec, set, bound),
        PartKind::Bound,
        pair.as_bytes(),
    )
}

// Returns the names of the two configurations of a bound, with a space between them.
fn make_pair(spec: &Spec, bound: &Bound) -> Line
    ensures text { result ≡ pair_text spec.now bound.now }
    ensures short { length result ≤ 33 }
{
    let mut pair = Line::new();
    pair.text(spec.conf_name(bound.from).as_bytes());
    pair.text(b" ");
    pair.text(spec.conf_name(bound.to).as_bytes());
    pair
}

fn add_modes_of(text: &mut Vec<u8>, spec: &Spec, app: AppId) -> Result<(), AllocError>
    ensures { OnOk result (text.new.items ≡ text.old.items ++ idle_modes_text_of spec.now app.0) }
{
    match spec.apps.items().get(usize::from(app.0)) {
        Some(found) => add_modes(text, spec, app, found.modes.items()),
        None => Ok(()),
    }
}

fn add_modes(
    text: &mut Vec<u8>,
    spec: &Spec,
    app: AppId,
    modes: &[ModeSpec],
) -> Result<(), AllocError>
    ensures { OnOk result (text.new.items ≡ text.old.items ++ idle_modes_text spec.now app.0 modes.now) }
{
    for listed in modes {
        add_mode(text, spec, app, listed)?;
    }
    Ok(())
}

fn add_mode(
    text: &mut Vec<u8>,
    spec: &Spec,
    app: AppId,
    listed: &ModeSpec,
) -> Result<(), AllocError>
    ensures { OnOk result (text.new.items ≡ text.old.items ++ mode_line spec.now app.0 listed.now) }
{
    let mut name = Line::new();
    name.text(spec.app_name(app).as_bytes());
    name.text(b" ");
    name.text(name_of_mode(spec.kind_of_app(app), listed.mode).as_bytes());
    add_if(
        text,
        is_mode_idle(spec, app, listed.mode),
        PartKind::Mode,
        name.as_bytes(),
    )
}

fn add_app(text: &mut Vec<u8>, spec: &Spec, app: AppId) -> Result<(), AllocError>
    ensures { OnOk result (text.new.items ≡ text.old.items ++ idle_app_text spec.now app.0) }
{
    let name = spec.app_name(app).as_bytes();
    add_if(text, is_app_idle(spec, app), PartKind::App, name)
}

fn add_proc(text: &mut Vec<u8>, spec: &Spec, proc: ProcId) -> Result<(), AllocError>
    ensures { OnOk result (text.new.items ≡ text.old.items ++ idle_proc_text spec.now proc.0) }
{
    let name = spec.proc_name(proc).as_bytes();
    add_if(text, is_proc_idle(spec, proc), PartKind::Proc, name)
}

fn add_demand_at(text: &mut Vec<u8>, spec: &Spec, k: u8) -> Result<(), AllocError>
    ensures { OnOk result (text.new.items ≡ text.old.items ++ idle_demand_text_at spec.now k) }
{
    match spec.demands.items().get(usize::from(k)) {
        Some(demand) => add_demand(text, spec, demand),
        None => Ok(()),
    }
}

fn add_demand(text: &mut Vec<u8>, spec: &Spec, demand: &Demand) -> Result<(), AllocError>
    requires { IsDemand spec.now.procs spec.now.apps spec.now.confs spec.now.factors demand.now }
    ensures { OnOk result (text.new.items ≡ text.old.items ++ idle_demand_text spec.now demand.now) }
{
    let name = demand.name.as_str().as_bytes();
    add_if(text, is_demand_idle(spec, demand), PartKind::Demand, name)
}

// Appends the line of a part with this kind and name, if the part is idle.
fn add_if(text: &mut Vec<u8>, is_idle: bool, kind: PartKind, name: &[u8]) -> Result<(), AllocError>
    requires { length name.now ≤ 64 }
    ensures { OnOk result (text.new.items ≡ text.old.items ++ line_if is_idle kind name.now) }
{
    if is_idle {
        text.extend_from_slice(make_idle_line(kind, name).as_bytes())?;
    }
    Ok(())
}
