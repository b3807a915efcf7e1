//! The parts of a document that are shown if the document breaks a rule.

ghost use Rattle.std.specs.Prelude.{◌≡◌, ◌++◌, [], IfOk, OnOk, codes, decimal, string_bytes, if◌then◌else◌};
ghost use Rattle.json.specs.Print.{quoted};
ghost use Rattle.serde_json.specs.View.{members_view, view};
ghost use Rattle.spec_reading.specs.Versions.{has_version};
ghost use Rattle.document_explanations.specs.Found.{cut, elements_text, found_text_at, further_members, further_text, is_known, is_version_of};

use crate::lines::Lines;
use crate::objects::{ObjectKind, find_member};
use crate::paths::{value_at, wanted_at};
use crate::rules::DocumentKind;
use crate::values::value_text;
use crate::wanted_values::{Versions, Wanted};
use scram_doc::{Path, count_items, field, rule};
use scram_types::NoMemory;
use serde_json::{Map, Value};
use std::alloc::Global;

fn has_version(document: &Value, number: u64) -> bool
    ensures { result ≡ has_version number (view document.now) }
{
    match field(document, "scram") {
        Some(scram) => scram.as_u64() == Some(number),
        None => false,
    }
}

// Returns `true` if the version of a document is one of `versions`.
fn is_version_of(document: &Value, versions: Versions) -> bool
    ensures { result ≡ is_version_of (view document.now) versions }
{
    match versions {
        Versions::All => true,
        Versions::SecondOn => has_version(document, 2) || has_version(document, 3),
        Versions::Third => has_version(document, 3),
        Versions::Second => has_version(document, 2),
    }
}

// Returns `true` if the table of `object` has a member with this name for the version of the document.
fn is_known(document: &Value, object: ObjectKind, name: &str) -> bool
    ensures { result ≡ is_known (view document.now) object name.now }
{
    match find_member(object, name) {
        Some(member) => is_version_of(document, member.versions),
        None => false,
    }
}

fn quoted(alloc: Global, name: &String) -> Result<String, NoMemory>
    ensures { IfOk result (λ text. string_bytes text ≡ quoted (string_bytes name.now)) }
{
    Ok(Value::String(name.clone()?).to_string(alloc)?)
}

// Appends a name as a JSON text, preceded by a comma and a space if `is_later` is `true`.
fn add_name(alloc: Global, lines: &mut Lines, is_later: bool, name: &String) -> Result<(), NoMemory>
    ensures { OnOk result (lines.new ≡ lines.old ++ (if is_later then codes ", " else []) ++ quoted (string_bytes name.now)) }
{
    let text = quoted(alloc, name)?;
    if is_later {
        lines.push(", ")?;
    }
    lines.push(text.as_str())
}

// Returns the names of those `members` that the table of `object` does not have for the version of the document, as
// JSON texts separated by a comma and a space.
#[tactic(auto, using(crate::proofs::Listing::nothing_left, crate::proofs::Listing::one_more))]
fn further_text(
    alloc: Global,
    document: &Value,
    object: ObjectKind,
    members: &Map<String, Value>,
) -> Result<String, NoMemory>
    ensures { IfOk result (λ text. string_bytes text ≡ further_text (view document.now) object (members_view members.now.entries)) }
{
    let mut lines = Lines::new(alloc);
    let mut is_later = false;
    for (name, _) in members.iter() {
        if !is_known(document, object, name.as_str()) {
            add_name(alloc, &mut lines, is_later, name)?;
            is_later = true;
        }
    }
    Ok(lines.into_text())
}

fn further_members(
    alloc: Global,
    document: &Value,
    wanted: Option<Wanted>,
    value: &Value,
) -> Result<String, NoMemory>
    ensures { IfOk result (λ text. string_bytes text ≡ further_members (view document.now) wanted (view value.now)) }
{
    match wanted {
        Some(Wanted::Object(object)) => match value.as_object() {
            Some(members) => further_text(alloc, document, object, members),
            None => Ok(String::new(alloc)),
        },
        Some(Wanted::List { .. }) => Ok(String::new(alloc)),
        Some(Wanted::Number(_)) => Ok(String::new(alloc)),
        Some(Wanted::Text(_)) => Ok(String::new(alloc)),
        None => Ok(String::new(alloc)),
    }
}

fn count_text(alloc: Global, count: usize) -> Result<String, NoMemory>
    ensures { IfOk result (λ text. string_bytes text ≡ decimal count ++ codes " elements") }
{
    let mut lines = Lines::new(alloc);
    lines.number(count)?;
    lines.push(" elements")?;
    Ok(lines.into_text())
}

fn elements_text(alloc: Global, value: &Value) -> Result<String, NoMemory>
    ensures { IfOk result (λ text. string_bytes text ≡ elements_text (view value.now)) }
{
    match value.as_array() {
        Some(items) => count_text(alloc, count_items(items)),
        None => Ok(String::new(alloc)),
    }
}

/// Returns the text that is shown for the value at `path`, where `rule` is broken, or the empty text if the document
/// has no such path. The text has the names of the members that are not known if `rule` is `FURTHER_MEMBER`, and the
/// number of elements if `rule` is `WRONG_LENGTH`. For any other rule, it is the JSON text of the value.
///
/// # Errors
///
/// Returns an error if memory runs out.
pub fn found_text_at(
    alloc: Global,
    kind: DocumentKind,
    rule: u8,
    path: &Path,
    document: &Value,
) -> Result<String, NoMemory>
    ensures { IfOk result (λ text. string_bytes text ≡ found_text_at kind rule path.now (view document.now)) }
{
    let Some(value) = value_at(document, path) else {
        return Ok(String::new(alloc));
    };
    match rule {
        rule::FURTHER_MEMBER => {
            further_members(alloc, document, wanted_at(kind, rule, path), value)
        }
        rule::WRONG_LENGTH => elements_text(alloc, value),
        _ => value_text(alloc, value),
    }
}

/// Returns the text itself if it has at most 60 characters, and otherwise its first 60 characters and two dots.
///
/// # Errors
///
/// Returns an error if memory runs out.
pub fn cut(alloc: Global, text: String) -> Result<String, NoMemory>
    ensures { IfOk result (λ cut_text. string_bytes cut_text ≡ cut (string_bytes text)) }
{
    let short = format!(in alloc; "{text:.60}")?;
    if short.len() == text.len() {
        Ok(text)
    } else {
        Ok(format!(in alloc; "{short}..")?)
    }
}
