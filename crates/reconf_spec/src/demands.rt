//! Writing demands.

ghost use Rattle.std.specs.Prelude.{◌≡◌, map, IfOk};
ghost use Rattle.serde_json.specs.View.{view};
ghost use Rattle.scram_doc.specs.Objects.{members_of};
ghost use Rattle.reconf_spec.specs.Texts.{demand_data, name_of_app_mode, on_app_data, on_data, with_asked, with_condition};

use crate::items::{Writer, make_text};
use crate::table::put_set;
use crate::values::name_of_app_mode;
use scram_doc::{Object, Writes};
use scram_types::{AppId, AppSpec, Conf, Demand, Mode, Modes, Proc, Spec};
use serde_json::Value;
use spec_reading::names::ByName;
use std::alloc::{AllocError, Global};

/// A writer of the modes of application `app`.
#[derive(Clone, Copy)]
struct OnWriter<'a> {
    spec: &'a Spec,
    app: AppId,
}

impl Writes<Mode> for OnWriter<'_> {
    ghost use Rattle.serde_json.specs.Data.{string};

    ghost written = { λ w mode. string (name_of_app_mode w.spec.now.apps w.app.0 mode.0) };

    fn value(&self, alloc: Global, mode: &Mode) -> Result<Value, AllocError> {
        let spec = self.spec;
        make_text(alloc, name_of_app_mode(spec.apps.items(), self.app, *mode))
    }
}

fn make_on_app(alloc: Global, spec: &Spec, app: AppId, modes: &Modes) -> Result<Value, AllocError>
    ensures { IfOk result (λ v. view v ≡ on_app_data spec.now app.0 modes.now) }
{
    let name = spec.app_name(app);
    let object = Object::new(alloc)
        .text("app", name)?
        .list("modes", &OnWriter { spec, app }, modes.as_slice())?;
    Ok(object.into_value())
}

fn make_on(alloc: Global, spec: &Spec, on: &[Option<Modes>; 8]) -> Result<Vec<Value>, AllocError>
    ensures { IfOk result (λ vs. map view vs.items ≡ on_data spec.now 0 on.now) }
{
    let mut values = Vec::new(alloc);
    for (app, modes) in on.iter().enumerate() {
        if let Some(modes) = modes {
            let value = make_on_app(alloc, spec, AppId(app as u8), modes)?;
            serde_json::push(&mut values, value)?;
        }
    }
    Ok(values)
}

/// Sets the members of a demand that contain the environments and configurations to which the demand applies.
fn with_condition(
    object: Object,
    alloc: Global,
    spec: &Spec,
    demand: &Demand,
) -> Result<Object, AllocError>
    ensures { IfOk result (λ o. members_of o ≡ with_condition spec.now demand.now (members_of object)) }
{
    let confs = spec.confs.items();
    let procs = spec.procs.items();
    let object = put_set::<Conf, ByName>(object, alloc, "from", confs, demand.from)?;
    let object = object.list("when", &Writer { spec }, demand.wants.items())?;
    let object = put_set::<Proc, ByName>(object, alloc, "up", procs, u16::from(demand.up))?;
    put_set::<Proc, ByName>(object, alloc, "down", procs, u16::from(demand.down))
}

/// Sets the members of a demand that contain its requirements on the chosen configuration.
fn with_asked(
    object: Object,
    alloc: Global,
    spec: &Spec,
    demand: &Demand,
) -> Result<Object, AllocError>
    ensures { IfOk result (λ o. members_of o ≡ with_asked spec.now demand.now (members_of object)) }
{
    let confs = spec.confs.items();
    let apps = spec.apps.items();
    let object = put_set::<Conf, ByName>(object, alloc, "to", confs, demand.to)?;
    let on = make_on(alloc, spec, &demand.on)?;
    let object = object.values("on", on)?;
    put_set::<AppSpec, ByName>(object, alloc, "off", apps, u16::from(demand.off))
}

impl Writes<Demand> for Writer<'_> {
    ghost written = { λ w. demand_data w.spec.now };

    fn value(&self, alloc: Global, demand: &Demand) -> Result<Value, AllocError> {
        let spec = self.spec;
        let object = with_condition(Object::new(alloc), alloc, spec, demand)?;
        let object = with_asked(object, alloc, spec, demand)?.text("name", demand.name.as_str())?;
        Ok(object.into_value())
    }
}
