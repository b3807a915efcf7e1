//! Rules of the choice table.

ghost use Rattle.std.specs.Prelude.{◌≡◌, ◌≤◌, ◌<◌, false, codes, length, slice_get, IfOk, IfSome};
ghost use Rattle.std.specs.Option.{option_copied};
ghost use Rattle.serde_json.specs.View.{view};
ghost use Rattle.scram_types.specs.Specification.{IsIn, IsInIfNamed};
ghost use Rattle.scram_doc.specs.Chain.{ok_map};
ghost use Rattle.scram_doc.specs.Faults.{Answers};
ghost use Rattle.scram_doc.specs.Lists.{AllAfter};
ghost use Rattle.spec_reading.specs.Choices.{read_conf_id, read_source, wants_factor, read_new_factor, read_value_of, read_want, read_choice, read_choices};
ghost use Rattle.spec_reading.specs.Members.{member_in};
ghost use Rattle.spec_reading.specs.TableFacts.{IsNewWant, FitsChoice, HasValue};
ghost use Rattle.spec_reading.specs.Found.{AreMembers};

use crate::members::Members;
use crate::names::{ByName, read_named};
use crate::numbered::Numbered;
use crate::rule;
use crate::sets::read_procs_set;
use crate::vocabulary::Vocabulary;
use scram_doc::{
    DocError, DocFault, Elements, Lengths, Path, exactly_four, exactly_two, read_list, text,
};
use scram_types::limits::{MAX_FACTORS, MAX_RULES};
use scram_types::{Choice, Conf, ConfId, Factor, FactorId, List, Want};
use serde_json::Value;
use std::alloc::Global;

/// Reads a configuration from its name. Returns an error if the value is not a text, or no configuration has this
/// name.
pub fn read_conf_id(
    confs: &Numbered<Conf, ByName>,
    v: &Value,
    at: &Path,
) -> Result<ConfId, DocFault>
    requires few { length confs.now ≤ 12 }
    ensures value { result ≡ read_conf_id confs.now at.now (view v.now) }
    ensures there { IfOk result (λ c. IsIn confs.now c) }
{
    Ok(ConfId(read_named(confs, rule::UNKNOWN_CONFIGURATION, v, at)?))
}

/// Reads a configuration from its name, or returns `None` if the value is `*`. Returns an error if the value is not a
/// text, or no configuration has this name.
pub fn read_source(
    confs: &Numbered<Conf, ByName>,
    v: &Value,
    at: &Path,
) -> Result<Option<ConfId>, DocFault>
    requires few { length confs.now ≤ 12 }
    ensures value { result ≡ read_source confs.now at.now (view v.now) }
    ensures there { IfOk result (λ c. IsInIfNamed confs.now c) }
{
    if text(v, at)? == "*" {
        Ok(None)
    } else {
        Ok(Some(read_conf_id(confs, v, at)?))
    }
}

fn wants_factor(wants: &[Want], factor: FactorId) -> bool
    ensures { result ≡ wants_factor wants.now factor.0 }
{
    wants.iter().any(|want| want.factor.0 == factor.0)
}

fn read_new_factor(
    factors: &Numbered<Factor, ByName>,
    done: &[Want],
    v: &Value,
    at: &Path,
) -> Result<FactorId, DocFault>
    requires few { length factors.now ≤ 6 }
    ensures value { ok_map (λ factor. factor.0) result ≡ read_new_factor factors.now done.now at.now (view v.now) }
    ensures there { IfOk result (λ factor. factor.0 < length factors.now) }
    ensures new { IfOk result (λ factor. wants_factor done.now factor.0 ≡ false) }
{
    let factor = FactorId(read_named(factors, rule::UNKNOWN_FACTOR_OR_VALUE, v, at)?);
    if wants_factor(done, factor) {
        Err(DocFault::new(rule::TWICE_IN_LIST, at))
    } else {
        Ok(factor)
    }
}

fn find_factor(factors: &Numbered<Factor, ByName>, factor: FactorId) -> Option<&Factor>
    ensures { option_copied result ≡ slice_get factors.now factor.0 }
{
    factors.items().get(usize::from(factor.0))
}

fn read_value_of(factor: Option<&Factor>, v: &Value, at: &Path) -> Result<u8, DocFault>
    requires few { IfSome factor (λ f. length f.now.values ≤ 255) }
    ensures value { result ≡ read_value_of (option_copied factor.entry) at.now (view v.now) }
    ensures there { IfOk result (λ value. HasValue (option_copied factor.entry) value) }
{
    let Some(found) = factor else {
        return Err(DocFault::new(rule::UNKNOWN_FACTOR_OR_VALUE, at));
    };
    match found.value_named(text(v, at)?.as_bytes()) {
        Some(value) => Ok(value),
        None => Err(DocFault::new(rule::UNKNOWN_FACTOR_OR_VALUE, at)),
    }
}

#[derive(Clone, Copy)]
pub(crate) struct Wants<'a> {
    pub(crate) vocabulary: &'a Vocabulary,
}

impl Elements<Want> for Wants<'_> {
    ghost room = { 40 };

    ghost reading = { λ wants. read_want wants.vocabulary.now.factors };

    ghost Fits = { λ wants. IsNewWant wants.vocabulary.now.factors };

    fn read(&self, _alloc: Global, done: &[Want], v: &Value, at: &Path) -> Result<Want, DocError> {
        let (factor, value) = exactly_two(v, ("factor", "value"), at)?;
        let vocabulary = self.vocabulary;
        let factors = &vocabulary.factors;
        let factor = read_new_factor(factors, done, factor, &at.member("factor"))?;
        let found = find_factor(factors, factor);
        let value = read_value_of(found, value, &at.member("value"))?;
        Ok(Want { factor, value })
    }
}

#[derive(Clone, Copy)]
struct Choices<'a> {
    vocabulary: &'a Vocabulary,
}

impl Elements<Choice> for Choices<'_> {
    ghost room = { 24 };

    ghost reading = { λ choices. read_choice choices.vocabulary.now.procs choices.vocabulary.now.confs choices.vocabulary.now.factors };

    ghost Fits = { λ choices _. FitsChoice choices.vocabulary.now.procs choices.vocabulary.now.confs choices.vocabulary.now.factors };

    fn read(
        &self,
        alloc: Global,
        _done: &[Choice],
        v: &Value,
        at: &Path,
    ) -> Result<Choice, DocError> {
        let (from, wants, up, to) = exactly_four(v, ("from", "when", "up", "to"), at)?;
        let vocabulary = self.vocabulary;
        let confs = &vocabulary.confs;
        let from = read_source(confs, from, &at.member("from"))?;
        let few = Lengths::up_to(MAX_FACTORS);
        let wants = read_list(alloc, &Wants { vocabulary }, wants, few, &at.member("when"))?;
        let procs = &vocabulary.procs;
        let up = read_procs_set(procs, 0, up, &at.member("up"))?;
        let to = read_conf_id(confs, to, &at.member("to"))?;
        Ok(Choice {
            from,
            wants: List::of(wants),
            up,
            to,
        })
    }
}

/// Reads the 0 to 64 rules of a document's choice table. Returns an error with the first broken rule, or `NoMemory`
/// if memory runs out.
pub fn read_choices(
    alloc: Global,
    vocabulary: &Vocabulary,
    members: &Members<'_>,
) -> Result<Vec<Choice>, DocError>
    requires members { AreMembers members.now }
    ensures value { Answers (member_in (codes "rules") (read_choices vocabulary.now.procs vocabulary.now.confs vocabulary.now.factors)
        (view members.now.document.now)) (λ l. l.items) result }
    ensures few { IfOk result (λ l. length l.items ≤ 64) }
    ensures fits { IfOk result (λ l. AllAfter (λ _. FitsChoice vocabulary.now.procs vocabulary.now.confs vocabulary.now.factors) l.items) }
{
    let at = Path::root().member("rules");
    read_list(
        alloc,
        &Choices { vocabulary },
        members.rules,
        Lengths::up_to(MAX_RULES),
        &at,
    )
}
