//! Writing the choice table, bounds, invariants and preconditions.

ghost use Rattle.std.specs.Prelude.{◌≡◌, ◌≤◌, length, map, IfOk};
ghost use Rattle.serde_json.specs.Data.{put};
ghost use Rattle.serde_json.specs.View.{view};
ghost use Rattle.scram_doc.specs.Objects.{members_of};
ghost use Rattle.reconf_spec.specs.Texts.{bound_data, choice_data, invariant_data, names_data, precondition_data, set_data, want_data};

use crate::items::{Writer, make_text};
use crate::values::{name_of_value, name_of_variable, source_name};
use scram_doc::{Object, Writes};
use scram_types::bits::is_in;
use scram_types::{Bound, Choice, Invariant, Precondition, Proc, Want};
use serde_json::Value;
use spec_reading::names::{ByName, Naming};
use std::alloc::{AllocError, Global};

impl Writes<Want> for Writer<'_> {
    ghost written = { λ w. want_data w.spec.now.factors };

    fn value(&self, alloc: Global, want: &Want) -> Result<Value, AllocError> {
        let spec = self.spec;
        let factor = spec.factor_name(want.factor);
        let value = name_of_value(spec, *want);
        let object = Object::new(alloc)
            .text("factor", factor)?
            .text("value", value)?;
        Ok(object.into_value())
    }
}

/// Returns the names of the items whose numbers are in a set, in order.
fn make_names<T, N: Naming<T>>(
    alloc: Global,
    items: &[T],
    set: u16,
) -> Result<Vec<Value>, AllocError>
    requires { length items.now ≤ 12 }
    ensures { IfOk result (λ vs. map view vs.items ≡ names_data N.spelling set 0 items.now) }
{
    let mut values = Vec::new(alloc);
    for (n, item) in items.iter().enumerate() {
        if is_in(set, n as u8) {
            let value = make_text(alloc, N::name(item))?;
            serde_json::push(&mut values, value)?;
        }
    }
    Ok(values)
}

/// Sets the member `name` of an object to the names of the items whose numbers are in a set.
pub(crate) fn put_set<T, N: Naming<T>>(
    object: Object,
    alloc: Global,
    name: &str,
    items: &[T],
    set: u16,
) -> Result<Object, AllocError>
    requires { length items.now ≤ 12 }
    ensures { IfOk result (λ o. members_of o ≡ put name.now (set_data N.spelling items.now set) (members_of object)) }
{
    let values = make_names::<T, N>(alloc, items, set)?;
    object.values(name, values)
}

impl Writes<Choice> for Writer<'_> {
    ghost written = { λ w. choice_data w.spec.now };

    fn value(&self, alloc: Global, rule: &Choice) -> Result<Value, AllocError> {
        let spec = self.spec;
        let from = source_name(spec, rule.from);
        let to = spec.conf_name(rule.to);
        let procs = spec.procs.items();
        let object = Object::new(alloc).text("from", from)?.text("to", to)?;
        let object = put_set::<Proc, ByName>(object, alloc, "up", procs, u16::from(rule.up))?;
        let object = object.list("when", self, rule.wants.items())?;
        Ok(object.into_value())
    }
}

impl Writes<Bound> for Writer<'_> {
    ghost written = { λ w. bound_data w.spec.now.confs };

    fn value(&self, alloc: Global, bound: &Bound) -> Result<Value, AllocError> {
        let spec = self.spec;
        let from = spec.conf_name(bound.from);
        let to = spec.conf_name(bound.to);
        let object = Object::new(alloc)
            .count("frames", bound.frames)?
            .text("from", from)?
            .text("to", to)?;
        Ok(object.into_value())
    }
}

impl Writes<Invariant> for Writer<'_> {
    ghost written = { λ w. invariant_data w.spec.now };

    fn value(&self, alloc: Global, inv: &Invariant) -> Result<Value, AllocError> {
        let spec = self.spec;
        let apps = spec.apps.items();
        let app = spec.app_name(inv.app);
        let from = source_name(spec, inv.from);
        let variable = name_of_variable(apps, inv.app, inv.variable);
        let object = Object::new(alloc)
            .text("app", app)?
            .text("from", from)?
            .integer("greatest", &inv.greatest)?
            .integer("least", &inv.least)?
            .text("variable", variable)?;
        Ok(object.into_value())
    }
}

impl Writes<Precondition> for Writer<'_> {
    ghost written = { λ w. precondition_data w.spec.now };

    fn value(&self, alloc: Global, pre: &Precondition) -> Result<Value, AllocError> {
        let spec = self.spec;
        let apps = spec.apps.items();
        let app = spec.app_name(pre.app);
        let conf = spec.conf_name(pre.conf);
        let variable = name_of_variable(apps, pre.app, pre.variable);
        let object = Object::new(alloc)
            .text("app", app)?
            .text("configuration", conf)?
            .integer("greatest", &pre.greatest)?
            .integer("least", &pre.least)?
            .text("variable", variable)?;
        Ok(object.into_value())
    }
}
