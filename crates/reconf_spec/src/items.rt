//! Writing processors, applications, configurations and factors.

ghost use Rattle.std.specs.Prelude.{◌≡◌, map, IfOk};
ghost use Rattle.serde_json.specs.Data.{string};
ghost use Rattle.serde_json.specs.View.{view};
ghost use Rattle.reconf_spec.specs.Texts.{app_data, conf_data, factor_data, mode_data, need_data, place_data, places_data, proc_data};

use crate::values::name_of_app_mode;
use kind_table::{kind_name, mode_name};
use scram_doc::{Object, Writes};
use scram_types::{AppId, AppSpec, Conf, Factor, KindId, ModeSpec, Name, Place, Proc, Spec};
use serde_json::{Value, json};
use std::alloc::{AllocError, Global};

/// A writer of the items of a specification's lists.
#[derive(Clone, Copy)]
pub(crate) struct Writer<'a> {
    pub(crate) spec: &'a Spec,
}

/// A writer of the modes that an application of kind `kind` lists.
#[derive(Clone, Copy)]
struct ModeWriter {
    kind: KindId,
}

/// Returns the value that encodes a text. Returns an error if memory runs out.
pub(crate) fn make_text(alloc: Global, text: &str) -> Result<Value, AllocError>
    ensures { IfOk result (λ v. view v ≡ string text.now) }
{
    json!(in alloc; text)
}

impl Writes<Proc> for Writer<'_> {
    ghost written = { λ _. proc_data };

    fn value(&self, alloc: Global, proc: &Proc) -> Result<Value, AllocError> {
        let name = proc.name.as_str();
        let object = Object::new(alloc)
            .count("capacity", proc.capacity)?
            .text("name", name)?;
        Ok(object.into_value())
    }
}

impl Writes<ModeSpec> for ModeWriter {
    ghost written = { λ w. mode_data w.kind.0 };

    fn value(&self, alloc: Global, listed: &ModeSpec) -> Result<Value, AllocError> {
        let mode = mode_name(self.kind, listed.mode).unwrap_or("");
        let object = Object::new(alloc)
            .count("halt", u32::from(listed.halt))?
            .count("init", u32::from(listed.init))?
            .count("load", listed.load)?
            .text("mode", mode)?
            .count("prepare", u32::from(listed.prepare))?;
        Ok(object.into_value())
    }
}

impl Writes<AppId> for Writer<'_> {
    ghost written = { λ w. need_data w.spec.now.apps };

    fn value(&self, alloc: Global, need: &AppId) -> Result<Value, AllocError> {
        make_text(alloc, self.spec.app_name(*need))
    }
}

impl Writes<AppSpec> for Writer<'_> {
    ghost written = { λ w. app_data w.spec.now.apps };

    fn value(&self, alloc: Global, app: &AppSpec) -> Result<Value, AllocError> {
        let kind = kind_name(app.kind).unwrap_or("");
        let object = Object::new(alloc)
            .text("kind", kind)?
            .list("modes", &ModeWriter { kind: app.kind }, app.modes.items())?
            .text("name", app.name.as_str())?
            .list("needs", self, app.needs.items())?;
        Ok(object.into_value())
    }
}

fn make_place(alloc: Global, spec: &Spec, app: AppId, place: &Place) -> Result<Value, AllocError>
    ensures { IfOk result (λ v. view v ≡ place_data spec.now app.0 place.now) }
{
    let name = spec.app_name(app);
    let mode = name_of_app_mode(spec.apps.items(), app, place.mode);
    let on = spec.proc_name(place.proc);
    let object = Object::new(alloc)
        .text("app", name)?
        .text("mode", mode)?
        .text("on", on)?;
    Ok(object.into_value())
}

fn make_places(
    alloc: Global,
    spec: &Spec,
    places: &[Option<Place>; 8],
) -> Result<Vec<Value>, AllocError>
    ensures { IfOk result (λ vs. map view vs.items ≡ places_data spec.now 0 places.now) }
{
    let mut values = Vec::new(alloc);
    for (app, place) in places.iter().enumerate() {
        if let Some(place) = place {
            let value = make_place(alloc, spec, AppId(app as u8), place)?;
            serde_json::push(&mut values, value)?;
        }
    }
    Ok(values)
}

impl Writes<Conf> for Writer<'_> {
    ghost written = { λ w. conf_data w.spec.now };

    fn value(&self, alloc: Global, conf: &Conf) -> Result<Value, AllocError> {
        let spec = self.spec;
        let places = make_places(alloc, spec, &conf.places)?;
        let object = Object::new(alloc)
            .values("apps", places)?
            .text("name", conf.name.as_str())?;
        Ok(object.into_value())
    }
}

impl Writes<Name> for Writer<'_> {
    ghost written = { λ _ name. string name };

    fn value(&self, alloc: Global, name: &Name) -> Result<Value, AllocError> {
        make_text(alloc, name.as_str())
    }
}

impl Writes<Factor> for Writer<'_> {
    ghost written = { λ _. factor_data };

    fn value(&self, alloc: Global, factor: &Factor) -> Result<Value, AllocError> {
        let object = Object::new(alloc)
            .text("name", factor.name.as_str())?
            .list("values", self, factor.values.items())?;
        Ok(object.into_value())
    }
}
