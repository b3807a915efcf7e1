//! Paths, the expected value at a path, and the value that was found there.

ghost use Rattle.std.specs.Prelude.{◌≡◌, ◌∷◌, ◌<◌, [], IfSome, MatchOption, length, option_and_then, option_map};
ghost use Rattle.serde_json.specs.View.{view};
ghost use Rattle.trace_text.specs.Pieces.{pieces_of};
ghost use Rattle.document_explanations.specs.Paths.{after_dot, all_but_last, child, wanted_below, value_along, value_at, wanted_along, wanted_at, wanted_element};

use crate::objects::find_member;
use crate::rules::DocumentKind;
use crate::wanted_values::{Element, Wanted};
use scram_doc::{Path, rule};
use serde_json::Value;
use trace_text::numbers::read_number;

// The exclusive upper limit of an index in a path.
const INDEX_END: u64 = 100_000;

// Returns a path without its first dot. The text is empty if the path is the path of the whole document.
fn after_dot(path: &Path) -> &str
    ensures { result.now ≡ after_dot path.now }
{
    match path.as_str().strip_prefix('.') {
        Some(levels) => levels,
        None => "",
    }
}

// Returns the first level of `levels` and the text after the dot that ends this level, or `None` if there is only one
// level.
fn split_level(levels: &str) -> Option<(&str, &str)>
    ensures pieces { MatchOption result (pieces_of 46 levels.now ≡ levels.now ∷ [])
        (λ parts. pieces_of 46 levels.now ≡ parts.0.now ∷ pieces_of 46 parts.1.now) }
    ensures shorter { IfSome result (λ parts. length parts.1.now < length levels.now) }
{
    levels.split_once('.')
}

fn wanted_below(wanted: Wanted, level: &str) -> Option<Wanted>
    ensures { result ≡ wanted_below wanted level.now }
{
    match wanted {
        Wanted::Object(object) => match find_member(object, level) {
            Some(member) => Some(member.wanted),
            None => None,
        },
        Wanted::List { length: _, element } => Some(wanted_element(element)),
        Wanted::Number(_) => None,
        Wanted::Text(_) => None,
    }
}

fn wanted_element(element: Element) -> Wanted
    ensures { result ≡ wanted_element element }
{
    match element {
        Element::Object(object) => Wanted::Object(object),
        Element::Text(text) => Wanted::Text(text),
    }
}

// Returns the expected value that is reached from `start` along all levels but the last, together with the last
// level. Returns `None` if no expected value is reached.
fn descend(start: Wanted, levels: &str) -> Option<(Wanted, &str)>
    ensures whole { wanted_along (pieces_of 46 levels.now) start ≡ option_and_then (λ end. wanted_below end.0 end.1.now) result }
    ensures above { wanted_along (all_but_last (pieces_of 46 levels.now)) start ≡ option_map (λ end. end.0) result }
{
    let mut wanted = start;
    let mut rest = levels;
    while let Some((level, more)) = split_level(rest) {
        wanted = wanted_below(wanted, level)?;
        rest = more;
    }
    Some((wanted, rest))
}

/// Returns the expected value at a path where a rule of a document is broken, or `None` if this kind of document has
/// no such path. If a member is missing, returns the expected value of the member's object.
pub fn wanted_at(kind: DocumentKind, rule: u8, path: &Path) -> Option<Wanted>
    ensures { result ≡ wanted_at kind rule path.now }
{
    let root = Wanted::Object(kind.root());
    let levels = after_dot(path);
    if levels.is_empty() {
        return Some(root);
    }
    let (above, last) = descend(root, levels)?;
    if rule == rule::MISSING_MEMBER {
        Some(above)
    } else {
        wanted_below(above, last)
    }
}

// Returns the member of `v` whose name is `level`, or else the element of `v` whose index is `level`, or `None` if
// there is neither.
fn child<'a>(v: &'a Value, level: &str) -> Option<&'a Value>
    ensures { option_map (λ d. view d.now) result ≡ child level.now (view v.now) }
{
    match v.get(level) {
        Some(member) => Some(member),
        None => v.get(read_number(level.as_bytes(), INDEX_END)? as usize),
    }
}

fn value_along<'a>(v: &'a Value, levels: &str) -> Option<&'a Value>
    ensures { option_map (λ d. view d.now) result ≡ value_along (pieces_of 46 levels.now) (view v.now) }
{
    let mut found = v;
    let mut rest = levels;
    while let Some((level, more)) = split_level(rest) {
        found = child(found, level)?;
        rest = more;
    }
    child(found, rest)
}

/// Returns the value at a path of a document, or `None` if there is none.
pub fn value_at<'a>(document: &'a Value, path: &Path) -> Option<&'a Value>
    ensures { option_map (λ d. view d.now) result ≡ value_at path.now (view document.now) }
{
    let levels = after_dot(path);
    if levels.is_empty() {
        Some(document)
    } else {
        value_along(document, levels)
    }
}
