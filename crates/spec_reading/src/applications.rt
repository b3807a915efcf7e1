//! Applications and their modes, before their needs are looked up by name.

ghost use Rattle.std.specs.Prelude.{◌≡◌, ◌≤◌, ◌<◌, None, length, is_some, IfOk};
ghost use Rattle.serde_json.specs.View.{view};
ghost use Rattle.kind_table.specs.Names.{mode_names, number_in};
ghost use Rattle.scram_types.specs.Specification.{mode_in};
ghost use Rattle.scram_doc.specs.Chain.{ok_map};
ghost use Rattle.spec_reading.specs.Modes.{read_kind_mode};
ghost use Rattle.spec_reading.specs.Applications.{read_new_mode, read_phase, read_mode, read_kind, check_text_list, read_app};
ghost use Rattle.spec_reading.specs.Facts.{IsListed};
ghost use Rattle.spec_reading.specs.AppFacts.{IsNewMode, IsNewApp};

use crate::modes::read_kind_mode;
use crate::names::{ByName, read_new_name};
use crate::numbered::{NamedElements, Numbered};
use crate::rule;
use kind_table::{kind_named, mode_named};
use scram_doc::{
    DocError, DocFault, Elements, Lengths, Path, exactly_five, exactly_four, list, read_list, text,
    whole_in,
};
use scram_types::limits::{MAX_APPLICATIONS, MAX_LOAD, MAX_MODES, MAX_PHASE};
use scram_types::{AppSpec, KindId, List, Mode, ModeSpec};
use serde_json::Value;
use std::alloc::Global;

fn is_listed(modes: &[ModeSpec], mode: Mode) -> bool
    ensures { result ≡ is_some (mode_in modes.now mode.0) }
{
    for listed in modes {
        if listed.mode.0 == mode.0 {
            return true;
        }
    }
    false
}

fn read_new_mode(kind: KindId, done: &[ModeSpec], v: &Value, at: &Path) -> Result<Mode, DocFault>
    ensures value { ok_map (λ mode. mode.0) result ≡ read_new_mode kind.0 done.now at.now (view v.now) }
    ensures of_kind { IfOk result (λ mode. IsListed (number_in (mode_names kind.0)) mode.0) }
    ensures new { IfOk result (λ mode. mode_in done.now mode.0 ≡ None) }
{
    let mode = read_kind_mode(kind, v, at)?;
    if is_listed(done, mode) {
        Err(DocFault::new(rule::MODE_TWICE, at))
    } else {
        Ok(mode)
    }
}

fn read_phase(v: &Value, at: &Path) -> Result<u8, DocFault>
    ensures value { result ≡ read_phase at.now (view v.now) }
    ensures least { IfOk result (λ frames. 1 ≤ frames) }
    ensures most { IfOk result (λ frames. frames ≤ 16) }
{
    let frames = whole_in(v, 1, u32::from(MAX_PHASE) + 1, at)?;
    Ok(frames as u8)
}

#[derive(Clone, Copy)]
struct Modes {
    kind: KindId,
}

impl Elements<ModeSpec> for Modes {
    ghost room = { 40 };

    ghost reading = { λ modes. read_mode modes.kind.0 };

    ghost Fits = { λ modes. IsNewMode modes.kind.0 };

    fn read(
        &self,
        _alloc: Global,
        done: &[ModeSpec],
        v: &Value,
        at: &Path,
    ) -> Result<ModeSpec, DocError> {
        let names = ("mode", "load", "halt", "prepare", "init");
        let (mode, load, halt, prepare, init) = exactly_five(v, names, at)?;
        let mode = read_new_mode(self.kind, done, mode, &at.member("mode"))?;
        let load = whole_in(load, 0, MAX_LOAD + 1, &at.member("load"))?;
        let halt = read_phase(halt, &at.member("halt"))?;
        let prepare = read_phase(prepare, &at.member("prepare"))?;
        let init = read_phase(init, &at.member("init"))?;
        Ok(ModeSpec {
            mode,
            load,
            halt,
            prepare,
            init,
        })
    }
}

fn read_kind(v: &Value, at: &Path) -> Result<KindId, DocFault>
    ensures value { ok_map (λ kind. kind.0) result ≡ read_kind at.now (view v.now) }
    ensures built { IfOk result (λ kind. kind.0 < 6) }
{
    match kind_named(text(v, at)?) {
        Some(kind) => Ok(kind),
        None => Err(DocFault::new(rule::UNKNOWN_KIND, at)),
    }
}

/// Checks that a value is a list of 0 to 8 texts.
fn check_text_list(v: &Value, at: &Path) -> Result<(), DocFault>
    requires room { length at.now ≤ 40 }
    ensures { result ≡ check_text_list at.now (view v.now) }
{
    let items = list(v, 0, MAX_APPLICATIONS, at)?;
    for (i, v) in items.iter().enumerate() {
        text(v, &at.item(i))?;
    }
    Ok(())
}

/// A reader of applications, without their needs and their ranks.
pub struct Apps;

impl NamedElements<AppSpec, ByName> for Apps {
    ghost room = { 24 };

    ghost reading = { λ _. read_app };

    ghost Fits = { λ _. IsNewApp };

    ghost is_new = { λ e done x fits. fits.name.new };

    fn read(
        &self,
        alloc: Global,
        done: &Numbered<AppSpec, ByName>,
        v: &Value,
        at: &Path,
    ) -> Result<AppSpec, DocError> {
        let names = ("name", "kind", "needs", "modes");
        let (name, kind, needs, modes) = exactly_four(v, names, at)?;
        let name = read_new_name(done, name, &at.member("name"))?;
        let kind = read_kind(kind, &at.member("kind"))?;
        check_text_list(needs, &at.member("needs"))?;
        let at = at.member("modes");
        let modes = read_list(
            alloc,
            &Modes { kind },
            modes,
            Lengths {
                least: 1,
                most: MAX_MODES,
            },
            &at,
        )?;
        Ok(AppSpec {
            name,
            kind,
            needs: List::of(Vec::new(alloc)),
            modes: List::of(modes),
            rank: 0,
        })
    }
}
