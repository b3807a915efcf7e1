ghost use Rattle.std.specs.Prelude.{◌≡◌, ◌≤◌, ◌+◌, length, option_map};
ghost use Rattle.serde_json.specs.Find.{get};
ghost use Rattle.serde_json.specs.View.{view, members_view};
ghost use Rattle.serde_json.specs.Events.{members_len};
ghost use Rattle.scram_doc.specs.Chain.{ok_map};
ghost use Rattle.scram_doc.specs.Members.{object_at, required_at, required_four_at, no_more_than, exactly_two_at, exactly_three_at, exactly_four_at, exactly_five_at};

use crate::{DocFault, Path, rule};
use serde_json::{Map, Value};

/// Checks that the value is an object. Returns a fault of rule 2 at its path if it is not.
pub fn object(v: &Value, at: &Path) -> Result<(), DocFault>
    ensures { result ≡ object_at at.now (view v.now) }
{
    if v.is_object() {
        Ok(())
    } else {
        Err(DocFault::new(rule::NO_OBJECT, at))
    }
}

/// Returns the value of member `name`, or `None` if the value is not an object or has no such member.
pub fn field<'a>(v: &'a Value, name: &str) -> Option<&'a Value>
    ensures { option_map (λ d. view d.now) result ≡ get name.now (view v.now) }
{
    v.get(name)
}

/// Returns the value of member `name` of the value at path `at`, or a fault of rule 3 at the member's path if there
/// is no such member. The member's path must fit the maximum length of a path.
pub fn required<'a>(v: &'a Value, name: &str, at: &Path) -> Result<&'a Value, DocFault>
    requires { length at.now + 1 + length name.now ≤ 64 }
    ensures { ok_map (λ d. view d.now) result ≡ required_at name.now at.now (view v.now) }
{
    field(v, name).ok_or_else(|| DocFault::new(rule::MISSING_MEMBER, &at.member(name)))
}

/// Returns the values of four members of the value at path `at`, or a fault of rule 3 at the path of the first that is
/// missing. Each member's path must fit the maximum length of a path.
pub fn required_four<'a>(
    v: &'a Value,
    names: (&str, &str, &str, &str),
    at: &Path,
) -> Result<(&'a Value, &'a Value, &'a Value, &'a Value), DocFault>
    requires first { length at.now + 1 + length names.0.now ≤ 64 }
    requires second { length at.now + 1 + length names.1.now ≤ 64 }
    requires third { length at.now + 1 + length names.2.now ≤ 64 }
    requires fourth { length at.now + 1 + length names.3.now ≤ 64 }
    ensures { ok_map (λ found. (view found.0.now, view found.1.now, view found.2.now, view found.3.now)) result
        ≡ required_four_at names.entry.0.now names.entry.1.now names.entry.2.now names.entry.3.now at.now (view v.now) }
{
    let first = required(v, names.0, at)?;
    let second = required(v, names.1, at)?;
    let third = required(v, names.2, at)?;
    let fourth = required(v, names.3, at)?;
    Ok((first, second, third, fourth))
}

/// Returns the values of the members of an object that has exactly two, in the order of `names`.
///
/// # Errors
///
/// Returns a fault of rule 2 at path `at` if the value is no object, of rule 3 at the path of the first member that is
/// missing, and of rule 4 at path `at` if there are further members. Each member's path must fit the maximum length of
/// a path.
pub fn exactly_two<'a>(
    v: &'a Value,
    names: (&str, &str),
    at: &Path,
) -> Result<(&'a Value, &'a Value), DocFault>
    requires first { length at.now + 1 + length names.0.now ≤ 64 }
    requires second { length at.now + 1 + length names.1.now ≤ 64 }
    ensures { ok_map (λ found. (view found.0.now, view found.1.now)) result
        ≡ exactly_two_at names.entry.0.now names.entry.1.now at.now (view v.now) }
{
    object(v, at)?;
    let first = required(v, names.0, at)?;
    let second = required(v, names.1, at)?;
    no_more_than(v, 2, at)?;
    Ok((first, second))
}

/// Returns the values of the members of an object that has exactly three, in the order of `names`, or the fault that
/// [`exactly_two`] returns.
pub fn exactly_three<'a>(
    v: &'a Value,
    names: (&str, &str, &str),
    at: &Path,
) -> Result<(&'a Value, &'a Value, &'a Value), DocFault>
    requires first { length at.now + 1 + length names.0.now ≤ 64 }
    requires second { length at.now + 1 + length names.1.now ≤ 64 }
    requires third { length at.now + 1 + length names.2.now ≤ 64 }
    ensures { ok_map (λ found. (view found.0.now, view found.1.now, view found.2.now)) result
        ≡ exactly_three_at names.entry.0.now names.entry.1.now names.entry.2.now at.now (view v.now) }
{
    object(v, at)?;
    let first = required(v, names.0, at)?;
    let second = required(v, names.1, at)?;
    let third = required(v, names.2, at)?;
    no_more_than(v, 3, at)?;
    Ok((first, second, third))
}

/// Returns the values of the members of an object that has exactly four, in the order of `names`, or the fault that
/// [`exactly_two`] returns.
pub fn exactly_four<'a>(
    v: &'a Value,
    names: (&str, &str, &str, &str),
    at: &Path,
) -> Result<(&'a Value, &'a Value, &'a Value, &'a Value), DocFault>
    requires first { length at.now + 1 + length names.0.now ≤ 64 }
    requires second { length at.now + 1 + length names.1.now ≤ 64 }
    requires third { length at.now + 1 + length names.2.now ≤ 64 }
    requires fourth { length at.now + 1 + length names.3.now ≤ 64 }
    ensures { ok_map (λ found. (view found.0.now, view found.1.now, view found.2.now, view found.3.now)) result
        ≡ exactly_four_at names.entry.0.now names.entry.1.now names.entry.2.now names.entry.3.now at.now (view v.now) }
{
    object(v, at)?;
    let found = required_four(v, names, at)?;
    no_more_than(v, 4, at)?;
    Ok(found)
}

/// Returns the values of the members of an object that has exactly five, in the order of `names`, or the fault that
/// [`exactly_two`] returns.
pub fn exactly_five<'a>(
    v: &'a Value,
    names: (&str, &str, &str, &str, &str),
    at: &Path,
) -> Result<(&'a Value, &'a Value, &'a Value, &'a Value, &'a Value), DocFault>
    requires first { length at.now + 1 + length names.0.now ≤ 64 }
    requires second { length at.now + 1 + length names.1.now ≤ 64 }
    requires third { length at.now + 1 + length names.2.now ≤ 64 }
    requires fourth { length at.now + 1 + length names.3.now ≤ 64 }
    requires fifth { length at.now + 1 + length names.4.now ≤ 64 }
    ensures { ok_map (λ found. (view found.0.now, view found.1.now, view found.2.now, view found.3.now, view found.4.now)) result
        ≡ exactly_five_at names.entry.0.now names.entry.1.now names.entry.2.now names.entry.3.now names.entry.4.now at.now (view v.now) }
{
    object(v, at)?;
    let first = required(v, names.0, at)?;
    let others = (names.1, names.2, names.3, names.4);
    let (second, third, fourth, fifth) = required_four(v, others, at)?;
    no_more_than(v, 5, at)?;
    Ok((first, second, third, fourth, fifth))
}

/// Checks that an object has at most `count` members. Returns a fault of rule 4 at its path if it has more. A member
/// that the text repeats counts once. A value that is not an object has no members.
pub fn no_more_than(v: &Value, count: usize, at: &Path) -> Result<(), DocFault>
    ensures { result ≡ no_more_than count at.now (view v.now) }
{
    match v.as_object() {
        Some(members) if count_members(members) > count => {
            Err(DocFault::new(rule::FURTHER_MEMBER, at))
        }
        Some(_) | None => Ok(()),
    }
}

fn count_members(members: &Map<String, Value>) -> usize
    ensures { result ≡ members_len (members_view members.now.entries) }
{
    members.len()
}
