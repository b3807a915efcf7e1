//! Sets of processors, applications and configurations, which a document lists by their names.

ghost use Rattle.std.specs.Prelude.{◌≡◌, ◌≤◌, ◌<◌, ◌^◌, length, IfOk};
ghost use Rattle.serde_json.specs.View.{view, items_view};
ghost use Rattle.scram_doc.specs.Lists.{folded_from};
ghost use Rattle.spec_reading.specs.TableFacts.{IsApart};
ghost use Rattle.spec_reading.specs.Sets.{read_apps_set, read_confs_set, read_into, read_procs_set};

use crate::names::{ByName, Naming, read_named};
use crate::numbered::Numbered;
use crate::rule;
use scram_doc::{DocFault, Path, list};
use scram_types::bits::is_in;
use scram_types::limits::{MAX_APPLICATIONS, MAX_CONFIGURATIONS, MAX_PROCESSORS};
use scram_types::{AppSpec, Conf, Proc};
use serde_json::Value;

/// The names that a list must not have: a name of no item, which breaks the rule `unknown`, and a name of an item whose
/// number is in the set `barred`.
#[derive(Clone, Copy)]
struct Refused {
    unknown: u8,
    barred: u16,
}

/// Reads the name of an item, and adds the item's number to the set.
fn read_into<T, N: Naming<T>>(
    items: &Numbered<T, N>,
    refused: Refused,
    set: u16,
    v: &Value,
    at: &Path,
) -> Result<u16, DocFault>
    requires few { length items.now ≤ 12 }
    requires set { set < 2 ^ length items.now }
    requires apart { IsApart set refused.barred }
    ensures value { result ≡ read_into N.spelling items.now refused.unknown refused.barred at.now set (view v.now) }
    ensures below { IfOk result (λ more. more < 2 ^ length items.now) }
    ensures apart { IfOk result (λ more. IsApart more refused.barred) }
{
    let number = read_named(items, refused.unknown, v, at)?;
    if is_in(set, number) || is_in(refused.barred, number) {
        Err(DocFault::new(rule::TWICE_IN_LIST, at))
    } else {
        Ok(set | 1 << number)
    }
}

/// Returns the set of the numbers of the items that the values name.
fn read_all<T, N: Naming<T>>(
    items: &Numbered<T, N>,
    refused: Refused,
    values: &[Value],
    at: &Path,
) -> Result<u16, DocFault>
    requires room { length at.now ≤ 40 }
    requires few { length items.now ≤ 12 }
    requires short { length values.now ≤ 12 }
    ensures value { result ≡ folded_from (read_into N.spelling items.now refused.unknown refused.barred) at.now 0 0 (items_view values.now) }
    ensures below { IfOk result (λ set. set < 2 ^ length items.now) }
    ensures apart { IfOk result (λ set. IsApart set refused.barred) }
{
    let mut set = 0;
    for (i, v) in values.iter().enumerate() {
        set = read_into(items, refused, set, v, &at.item(i))?;
    }
    Ok(set)
}

/// Returns a set of numbers below `count` as eight bits. `count` must be at most 8.
fn narrow(set: u16, count: usize) -> u8
    requires few { count ≤ 8 }
    requires below { set < 2 ^ count }
    ensures { result ≡ set }
{
    set as u8
}

/// Reads a set of 0 to 8 processors from a list of their names. None of the processors may be in `barred`.
pub(crate) fn read_procs_set(
    procs: &Numbered<Proc, ByName>,
    barred: u8,
    v: &Value,
    at: &Path,
) -> Result<u8, DocFault>
    requires room { length at.now ≤ 40 }
    requires few { length procs.now ≤ 8 }
    ensures value { result ≡ read_procs_set procs.now barred at.now (view v.now) }
    ensures below { IfOk result (λ set. set < 2 ^ length procs.now) }
    ensures apart { IfOk result (λ set. IsApart set barred) }
{
    let values = list(v, 0, MAX_PROCESSORS, at)?;
    let refused = Refused {
        unknown: rule::UNKNOWN_PROCESSOR,
        barred: u16::from(barred),
    };
    let set = read_all(procs, refused, values, at)?;
    Ok(narrow(set, procs.items().len()))
}

/// Reads a set of 0 to 8 applications from a list of their names. None of the applications may be in `barred`.
pub(crate) fn read_apps_set(
    apps: &Numbered<AppSpec, ByName>,
    barred: u8,
    v: &Value,
    at: &Path,
) -> Result<u8, DocFault>
    requires room { length at.now ≤ 40 }
    requires few { length apps.now ≤ 8 }
    ensures value { result ≡ read_apps_set apps.now barred at.now (view v.now) }
    ensures below { IfOk result (λ set. set < 2 ^ length apps.now) }
    ensures apart { IfOk result (λ set. IsApart set barred) }
{
    let values = list(v, 0, MAX_APPLICATIONS, at)?;
    let refused = Refused {
        unknown: rule::UNKNOWN_APPLICATION,
        barred: u16::from(barred),
    };
    let set = read_all(apps, refused, values, at)?;
    Ok(narrow(set, apps.items().len()))
}

/// Reads a set of 0 to 12 configurations from a list of their names.
pub(crate) fn read_confs_set(
    confs: &Numbered<Conf, ByName>,
    v: &Value,
    at: &Path,
) -> Result<u16, DocFault>
    requires room { length at.now ≤ 40 }
    requires few { length confs.now ≤ 12 }
    ensures value { result ≡ read_confs_set confs.now at.now (view v.now) }
    ensures below { IfOk result (λ set. set < 2 ^ length confs.now) }
{
    let values = list(v, 0, MAX_CONFIGURATIONS, at)?;
    let refused = Refused {
        unknown: rule::UNKNOWN_CONFIGURATION,
        barred: 0,
    };
    read_all(confs, refused, values, at)
}
