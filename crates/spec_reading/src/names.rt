//! Names, and the items that they name.

ghost use Rattle.std.specs.Prelude.{◌≡◌, ◌<◌, ◌≤◌, length, IfOk, IsTrue};
ghost use Rattle.serde_json.specs.View.{view};
ghost use Rattle.scram_types.specs.Names.{is_name};
ghost use Rattle.spec_reading.specs.Numbering.{itself};
ghost use Rattle.spec_reading.specs.Names.{read_name, read_new_name, read_named, name_of_proc, name_of_app, name_of_conf, name_of_factor, name_of_demand};
ghost use Rattle.spec_reading.specs.Facts.{IsFresh};

use crate::numbered::Numbered;
use crate::rule;
use scram_doc::{DocFault, Path, text};
use scram_types::{AppSpec, Conf, Demand, Factor, Name, Proc};
use serde_json::Value;

/// A way to get the name of an item.
pub trait Naming<T> {
    ghost use Rattle.std.specs.Prelude.{◌≡◌, List, ℕ};

    /// The bytes of an item's name.
    ghost spelling: { T → List ℕ };

    /// Returns the name of an item.
    fn name(item: &T) -> &str
        ensures { result.now ≡ spelling item.now };
}

/// The naming of items by their field `name`. The name of a `Name` is the `Name` itself.
pub struct ByName;

impl Naming<Proc> for ByName {
    ghost spelling = { name_of_proc };

    fn name(proc: &Proc) -> &str {
        proc.name.as_str()
    }
}

impl Naming<AppSpec> for ByName {
    ghost spelling = { name_of_app };

    fn name(app: &AppSpec) -> &str {
        app.name.as_str()
    }
}

impl Naming<Conf> for ByName {
    ghost spelling = { name_of_conf };

    fn name(conf: &Conf) -> &str {
        conf.name.as_str()
    }
}

impl Naming<Factor> for ByName {
    ghost spelling = { name_of_factor };

    fn name(factor: &Factor) -> &str {
        factor.name.as_str()
    }
}

impl Naming<Demand> for ByName {
    ghost spelling = { name_of_demand };

    fn name(demand: &Demand) -> &str {
        demand.name.as_str()
    }
}

impl Naming<Name> for ByName {
    ghost spelling = { itself };

    fn name(name: &Name) -> &str {
        name.as_str()
    }
}

/// Reads a name from a text. Returns an error if the value is not a text, or the text is not a valid name.
#[tactic(auto, using(crate::proofs::Spelled::name_spelled))]
fn read_name(v: &Value, at: &Path) -> Result<Name, DocFault>
    ensures value { result ≡ read_name at.now (view v.now) }
    ensures spelled { IfOk result (λ name. IsTrue (is_name name)) }
{
    match Name::of(text(v, at)?) {
        Some(name) => Ok(name),
        None => Err(DocFault::new(rule::NO_NAME, at)),
    }
}

/// Reads a name that no item of `done` has.
///
/// # Errors
///
/// Returns an error if the value is not a text, the text is not a name, or an item of `done` has the name.
#[tactic(auto, using(crate::proofs::Found::place_found))]
pub(crate) fn read_new_name<T, N: Naming<T>>(
    done: &Numbered<T, N>,
    v: &Value,
    at: &Path,
) -> Result<Name, DocFault>
    ensures value { result ≡ read_new_name N.spelling done.now at.now (view v.now) }
    ensures fresh { IfOk result (λ name. IsFresh N.spelling done.now name) }
{
    let name = read_name(v, at)?;
    match done.number(name.as_str()) {
        Some(_) => Err(DocFault::new(rule::NAME_TWICE, at)),
        None => Ok(name),
    }
}

/// Returns the number of the item that a text names.
///
/// # Errors
///
/// Returns an error if the value is not a text, and an error of the rule `unknown` if no item has this name.
#[tactic(auto, using(crate::proofs::Found::place_found))]
pub(crate) fn read_named<T, N: Naming<T>>(
    items: &Numbered<T, N>,
    unknown: u8,
    v: &Value,
    at: &Path,
) -> Result<u8, DocFault>
    requires few { length items.now ≤ 255 }
    ensures value { result ≡ read_named N.spelling items.now unknown at.now (view v.now) }
    ensures below { IfOk result (λ number. number < length items.now) }
{
    match items.number(text(v, at)?) {
        Some(number) => Ok(number as u8),
        None => Err(DocFault::new(unknown, at)),
    }
}
