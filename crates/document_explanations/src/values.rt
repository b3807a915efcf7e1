//! The texts that explanations show for JSON values.

ghost use Rattle.std.specs.Prelude.{◌≡◌, IfOk, string_bytes};
ghost use Rattle.serde_json.specs.View.{items_view, members_view, number_view, view};
ghost use Rattle.document_explanations.specs.Values.{items_without_floats, members_without_floats, unless_float, value_text, without_floats};

use scram_types::NoMemory;
use serde_json::{Map, Number, Value};
use std::alloc::Global;

// Returns a copy of a value in which each number that is read as a float is replaced by the text `a float`.
#[cycle(without_floats)]
fn without_floats(alloc: Global, value: &Value) -> Result<Value, NoMemory>
    ensures { IfOk result (λ v. view v ≡ without_floats (view value.now)) }
{
    match value {
        Value::Null => Ok(Value::Null),
        Value::Bool(b) => Ok(Value::Bool(*b)),
        Value::Number(number) => unless_float(alloc, number),
        Value::String(text) => Ok(Value::String(text.clone()?)),
        Value::Array(items) => Ok(Value::Array(items_without_floats(alloc, items)?)),
        Value::Object(members) => Ok(Value::Object(members_without_floats(alloc, members)?)),
    }
}

fn unless_float(alloc: Global, number: &Number) -> Result<Value, NoMemory>
    ensures { IfOk result (λ v. view v ≡ unless_float (number_view number.now)) }
{
    if number.is_f64() {
        Ok(Value::String(String::from_str(alloc, "a float")?))
    } else {
        Ok(Value::Number(*number))
    }
}

#[cycle(without_floats)]
fn items_without_floats(alloc: Global, items: &Vec<Value>) -> Result<Vec<Value>, NoMemory>
    ensures { IfOk result (λ v. items_view v.items ≡ items_without_floats (items_view items.now.items)) }
{
    let mut copies = Vec::with_capacity(alloc, items.len())?;
    for item in items {
        copies.push(without_floats(alloc, item)?)?;
    }
    Ok(copies)
}

#[cycle(without_floats)]
fn members_without_floats(
    alloc: Global,
    members: &Map<String, Value>,
) -> Result<Map<String, Value>, NoMemory>
    ensures { IfOk result (λ m. members_view m.entries ≡ members_without_floats (members_view members.now.entries)) }
{
    let mut copies = Map::new(alloc);
    for (key, member) in members.iter() {
        let name = key.clone()?;
        drop(copies.insert(name, without_floats(alloc, member)?)?);
    }
    Ok(copies)
}

/// Returns the JSON text of a value, written without spaces. Each number that is read as a float is replaced by the
/// text `a float`.
///
/// # Errors
///
/// Returns an error if memory runs out.
pub fn value_text(alloc: Global, value: &Value) -> Result<String, NoMemory>
    ensures { IfOk result (λ text. string_bytes text ≡ value_text (view value.now)) }
{
    let shown = without_floats(alloc, value)?;
    Ok(shown.to_string(alloc)?)
}
