//! Environment factors and their values.

ghost use Rattle.std.specs.Prelude.{◌≤◌, codes, length, IfOk};
ghost use Rattle.serde_json.specs.View.{view};
ghost use Rattle.scram_doc.specs.Faults.{Answers};
ghost use Rattle.spec_reading.specs.Factors.{read_value_name, read_factor, read_factors};
ghost use Rattle.spec_reading.specs.Members.{member_in};
ghost use Rattle.scram_doc.specs.Lists.{AllAfter};
ghost use Rattle.spec_reading.specs.Facts.{IsNewName, IsNewFactor};
ghost use Rattle.spec_reading.specs.Found.{AreMembers};

use crate::members::Members;
use crate::names::{ByName, read_new_name};
use crate::numbered::{NamedElements, Numbered, read_named_list};
use scram_doc::{DocError, Lengths, Path, exactly_two};
use scram_types::limits::{MAX_FACTORS, MAX_VALUES, MIN_VALUES};
use scram_types::{Factor, List, Name};
use serde_json::Value;
use std::alloc::Global;

struct Values;

impl NamedElements<Name, ByName> for Values {
    ghost room = { 40 };

    ghost reading = { λ _. read_value_name };

    ghost Fits = { λ _. IsNewName };

    ghost is_new = { λ e done x fits. fits.new };

    fn read(
        &self,
        _alloc: Global,
        done: &Numbered<Name, ByName>,
        v: &Value,
        at: &Path,
    ) -> Result<Name, DocError> {
        Ok(read_new_name(done, v, at)?)
    }
}

struct Factors;

impl NamedElements<Factor, ByName> for Factors {
    ghost room = { 24 };

    ghost reading = { λ _. read_factor };

    ghost Fits = { λ _. IsNewFactor };

    ghost is_new = { λ e done x fits. fits.name.new };

    fn read(
        &self,
        alloc: Global,
        done: &Numbered<Factor, ByName>,
        v: &Value,
        at: &Path,
    ) -> Result<Factor, DocError> {
        let (name, values) = exactly_two(v, ("name", "values"), at)?;
        let name = read_new_name(done, name, &at.member("name"))?;
        let at = at.member("values");
        let values = read_named_list(
            alloc,
            &Values,
            values,
            Lengths {
                least: MIN_VALUES,
                most: MAX_VALUES,
            },
            &at,
        )?;
        Ok(Factor {
            name,
            values: List::of(values.into_items()),
        })
    }
}

/// Reads the 0 to 6 environment factors of a document.
///
/// # Errors
///
/// Returns an error with the first broken rule and its path, and `NoMemory` if memory runs out.
pub fn read_factors(
    alloc: Global,
    members: &Members<'_>,
) -> Result<Numbered<Factor, ByName>, DocError>
    requires members { AreMembers members.now }
    ensures value { Answers (member_in (codes "factors") read_factors (view members.now.document.now)) (λ l. l) result }
    ensures few { IfOk result (λ l. length l ≤ 6) }
    ensures fits { IfOk result (λ l. AllAfter IsNewFactor l) }
{
    let at = Path::root().member("factors");
    read_named_list(
        alloc,
        &Factors,
        members.factors,
        Lengths::up_to(MAX_FACTORS),
        &at,
    )
}
