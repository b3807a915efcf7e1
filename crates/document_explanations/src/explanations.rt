//! The explanation in the refusal of a document that breaks a rule: the lines that follow the refusal's first line.

ghost use Rattle.std.specs.Prelude.{◌≡◌, ◌++◌, IfOk, OnOk, option_map, string_bytes};
ghost use Rattle.scram_doc.specs.Documents.{document};
ghost use Rattle.document_explanations.specs.Explanations.{explanation, found_line, found_part, rule_line, rule_lines, wanted_line, wanted_part};
ghost use Rattle.document_explanations.specs.Rules.{plain_rule};

use crate::found::{cut, found_text_at};
use crate::lines::Lines;
use crate::paths::wanted_at;
use crate::rules::{DocumentKind, DocumentRule, add_rule_text, broken_rule};
use crate::wants::add_wanted;
use scram_doc::{DocError, Path, parse};
use scram_types::{NoMemory, Spec};
use std::alloc::Global;

/// A document that breaks a rule.
#[derive(Clone, Copy)]
pub struct BrokenDocument<'a> {
    pub kind: DocumentKind,
    /// The specification that a script is for, or `None` if the document is a specification.
    pub spec: Option<&'a Spec>,
    /// The path of the value where the rule is broken.
    pub path: &'a Path,
    /// The bytes of the document.
    pub bytes: &'a [u8],
}

/// Appends the lines that follow the first line of the refusal of a document that breaks the rule with this number.
/// Appends nothing if there is no such rule.
///
/// # Errors
///
/// Returns an error if memory runs out.
pub fn add_explanation(
    alloc: Global,
    lines: &mut Lines,
    number: u8,
    broken: &BrokenDocument<'_>,
) -> Result<(), NoMemory>
    ensures { OnOk result (lines.new ≡ lines.old ++ explanation broken.now.kind (option_map (λ s. s.now) broken.now.spec) number broken.now.path.now
        (document broken.now.bytes.now)) }
{
    match broken_rule(broken.kind, number) {
        Some(rule) => add_rule_lines(alloc, lines, &rule, broken),
        None => Ok(()),
    }
}

fn add_rule_lines(
    alloc: Global,
    lines: &mut Lines,
    rule: &DocumentRule,
    broken: &BrokenDocument<'_>,
) -> Result<(), NoMemory>
    ensures { OnOk result (lines.new ≡ lines.old ++ rule_lines broken.now.kind (option_map (λ s. s.now) broken.now.spec) broken.now.path.now
        (document broken.now.bytes.now) (plain_rule rule.now)) }
{
    add_rule_line(lines, rule)?;
    add_wanted_line(lines, rule, broken)?;
    add_found_line(alloc, lines, rule, broken)
}

fn add_rule_line(lines: &mut Lines, rule: &DocumentRule) -> Result<(), NoMemory>
    ensures { OnOk result (lines.new ≡ lines.old ++ rule_line (plain_rule rule.now)) }
{
    lines.push("  rule ")?;
    lines.number(usize::from(rule.number))?;
    lines.push(": ")?;
    add_rule_text(lines, rule)?;
    lines.push("\n")
}

fn add_wanted_line(
    lines: &mut Lines,
    rule: &DocumentRule,
    broken: &BrokenDocument<'_>,
) -> Result<(), NoMemory>
    ensures { OnOk result (lines.new ≡ lines.old ++ wanted_line broken.now.kind (option_map (λ s. s.now) broken.now.spec)
        (plain_rule rule.now) broken.now.path.now) }
{
    if !rule.shows.wanted() {
        return Ok(());
    }
    lines.push("  wanted: ")?;
    add_wanted_part(lines, rule.number, broken)?;
    lines.push("\n")
}

fn add_wanted_part(
    lines: &mut Lines,
    number: u8,
    broken: &BrokenDocument<'_>,
) -> Result<(), NoMemory>
    ensures { OnOk result (lines.new ≡ lines.old ++ wanted_part broken.now.kind (option_map (λ s. s.now) broken.now.spec) number broken.now.path.now) }
{
    match wanted_at(broken.kind, number, broken.path) {
        Some(wanted) => add_wanted(lines, broken.spec, wanted),
        None => Ok(()),
    }
}

fn add_found_line(
    alloc: Global,
    lines: &mut Lines,
    rule: &DocumentRule,
    broken: &BrokenDocument<'_>,
) -> Result<(), NoMemory>
    ensures { OnOk result (lines.new ≡ lines.old ++ found_line broken.now.kind (plain_rule rule.now) broken.now.path.now
        (document broken.now.bytes.now)) }
{
    if !rule.shows.found() {
        return Ok(());
    }
    let found = found_part(alloc, rule.number, broken)?;
    lines.push("  found: ")?;
    lines.push(found.as_str())?;
    lines.push("\n")
}

fn found_part(alloc: Global, number: u8, broken: &BrokenDocument<'_>) -> Result<String, NoMemory>
    ensures { IfOk result (λ text. string_bytes text ≡ found_part broken.now.kind number broken.now.path.now
        (document broken.now.bytes.now)) }
{
    match parse(alloc, broken.bytes) {
        Ok(value) => cut(
            alloc,
            found_text_at(alloc, broken.kind, number, broken.path, &value)?,
        ),
        Err(DocError::Fault(_)) => Ok(String::new(alloc)),
        Err(DocError::NoMemory) => Err(NoMemory),
    }
}
