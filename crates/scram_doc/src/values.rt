ghost use Rattle.std.specs.Prelude.{◌≡◌, ◌≤◌, ◌<◌, ◌&&◌, ◌≤ℤ◌, int_le, length, IfOk};
ghost use Rattle.serde_json.specs.View.{view, items_view};
ghost use Rattle.serde_json.specs.Events.{items_len};
ghost use Rattle.scram_doc.specs.Chain.{ok_map};
ghost use Rattle.scram_doc.specs.Values.{list_at, text_at, int_at, whole_at};

use crate::{DocFault, Path, rule};
use serde_json::Value;

/// Returns the elements of a list of `least` to `most` elements.
///
/// # Errors
///
/// Returns a fault of rule 5 at the path if the value is not a list, and of rule 6 at the path if the list has fewer
/// than `least` or more than `most` elements.
pub fn list<'a>(v: &'a Value, least: usize, most: usize, at: &Path) -> Result<&'a [Value], DocFault>
    ensures items { ok_map (λ ds. items_view ds.now) result ≡ list_at least most at.now (view v.now) }
    ensures least { IfOk result (λ ds. least ≤ length ds.now) }
    ensures most { IfOk result (λ ds. length ds.now ≤ most) }
{
    let Some(items) = v.as_array() else {
        return Err(DocFault::new(rule::NO_LIST, at));
    };
    let count = count_items(items);
    if least <= count && count <= most {
        Ok(items)
    } else {
        Err(DocFault::new(rule::WRONG_LENGTH, at))
    }
}

/// Returns the number of values.
pub fn count_items(items: &[Value]) -> usize
    ensures view { result ≡ items_len (items_view items.now) }
    ensures length { result ≡ length items.now }
{
    items.len()
}

/// Returns the text of a string, or a fault of rule 7 at its path if the value is not a string.
pub fn text<'a>(v: &'a Value, at: &Path) -> Result<&'a str, DocFault>
    ensures { ok_map (λ s. s.now) result ≡ text_at at.now (view v.now) }
{
    v.as_str().ok_or_else(|| DocFault::new(rule::NO_TEXT, at))
}

/// Returns the whole number that the value encodes, from `least` to `most`. Returns a fault of rule 8 at its path if
/// the value is not such a number. A number with a point or an exponent, `-0` and a number beyond 64 bits are not
/// whole numbers.
pub fn int_in(v: &Value, least: i64, most: i64, at: &Path) -> Result<i64, DocFault>
    ensures value { result ≡ int_at least most at.now (view v.now) }
    ensures least { IfOk result (λ n. least ≤ℤ n) }
    ensures most { IfOk result (λ n. n ≤ℤ most) }
{
    match v.as_i64() {
        Some(number) if is_within(number, least, most) => Ok(number),
        Some(_) | None => Err(DocFault::new(rule::NO_NUMBER_IN_RANGE, at)),
    }
}

fn is_within(number: i64, least: i64, most: i64) -> bool
    ensures { result ≡ (int_le least number && int_le number most) }
{
    least <= number && number <= most
}

/// Returns the whole number that the value encodes, at least `least` and below `end`. Returns a fault of rule 8 at
/// its path if the value is not such a number.
pub fn whole_in(v: &Value, least: u32, end: u32, at: &Path) -> Result<u32, DocFault>
    ensures value { result ≡ whole_at least end at.now (view v.now) }
    ensures least { IfOk result (λ n. least ≤ n) }
    ensures end { IfOk result (λ n. n < end) }
{
    match v.as_u64() {
        Some(number) if least as u64 <= number && number < end as u64 => Ok(number as u32),
        Some(_) | None => Err(DocFault::new(rule::NO_NUMBER_IN_RANGE, at)),
    }
}
