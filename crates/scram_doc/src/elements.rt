//! Lists that are read element by element.

ghost use Rattle.std.specs.Prelude.{◌≡◌, ◌≤◌, ◌+◌, [], length, IfOk};
ghost use Rattle.serde_json.specs.View.{view, items_view};
ghost use Rattle.scram_doc.specs.Faults.{Answers};
ghost use Rattle.scram_doc.specs.Lists.{AllAfter, elements_from, elements_at};

use crate::{DocError, Path, list};
use serde_json::Value;
use std::alloc::Global;

/// A reader of the elements of a list. An element may depend on the elements before it.
pub trait Elements<T: Drop> {
    ghost use Rattle.std.specs.Prelude.{◌≡◌, ◌≤◌, List, ℕ, Result, IfOk, length};
    ghost use Rattle.serde_json.specs.Data.{Data};
    ghost use Rattle.serde_json.specs.View.{view};
    ghost use Rattle.scram_doc.specs.declared.fault.DocFault.{DocFault};
    ghost use Rattle.scram_doc.specs.Faults.{Answers};

    /// The maximum length of the path of an element.
    ghost room: { ℕ };

    /// The element that a value encodes, given its path, the elements before it and the value.
    ghost reading: { Self → List ℕ → List T → Data → Result T DocFault };

    /// The property that each element satisfies together with the elements before it.
    ghost Fits: { Self → List T → T → Type 0 };

    /// Returns the element that the value `v` at path `at` encodes, given the elements `done` before it.
    ///
    /// # Errors
    ///
    /// Returns a fault of the rule that the value breaks, and `NoMemory` if memory runs out.
    fn read(&self, alloc: Global, done: &[T], v: &Value, at: &Path) -> Result<T, DocError>
        requires room { length at.now ≤ room }
        ensures value { Answers (reading self.now at.now done.now (view v.now)) (λ x. x) result }
        ensures fits { IfOk result (λ x. Fits self.now done.now x) };
}

/// Returns the elements of a list whose length has been checked, given its values and its path.
///
/// # Errors
///
/// Returns a fault of the rule that the first faulty element breaks, and `NoMemory` if memory runs out.
pub fn read_items<T: Drop, E: Elements<T>>(
    alloc: Global,
    elements: &E,
    items: &[Value],
    at: &Path,
) -> Result<Vec<T>, DocError>
    requires room { length at.now + 6 ≤ E.room }
    requires path { length at.now ≤ 58 }
    requires few { length items.now ≤ 100000 }
    ensures value { Answers (elements_from (E.reading elements.now) at.now 0 [] (items_view items.now)) (λ l. l.items) result }
    ensures count { IfOk result (λ l. length l.items ≡ length items.now) }
    ensures fits { IfOk result (λ l. AllAfter (E.Fits elements.now) l.items) }
{
    let mut done = Vec::new(alloc);
    for (i, v) in items.iter().enumerate() {
        let element = elements.read(alloc, &done, v, &at.item(i))?;
        if done.push(element).is_err() {
            return Err(DocError::NoMemory);
        }
    }
    Ok(done)
}

/// The minimum and the maximum number of elements of a list, both inclusive.
#[derive(Clone, Copy)]
pub struct Lengths {
    pub least: usize,
    pub most: usize,
}

impl Lengths {
    /// Returns the lengths from 0 to `most`.
    pub fn up_to(most: usize) -> Lengths
        ensures least { result.least ≡ 0 }
        ensures most { result.most ≡ most }
    {
        Lengths { least: 0, most }
    }
}

/// Returns the elements of the list `v` at path `at`. The length of the list must be within `lengths`.
///
/// # Errors
///
/// Returns a fault of rule 5 if the value is not a list, of rule 6 if its length is not within `lengths`, and
/// otherwise of the rule that the first faulty element breaks. Returns `NoMemory` if memory runs out.
pub fn read_list<T: Drop, E: Elements<T>>(
    alloc: Global,
    elements: &E,
    v: &Value,
    lengths: Lengths,
    at: &Path,
) -> Result<Vec<T>, DocError>
    requires room { length at.now + 6 ≤ E.room }
    requires path { length at.now ≤ 58 }
    requires few { lengths.most ≤ 100000 }
    ensures value { Answers (elements_at (E.reading elements.now) lengths.least lengths.most at.now (view v.now)) (λ l. l.items) result }
    ensures least { IfOk result (λ l. lengths.least ≤ length l.items) }
    ensures most { IfOk result (λ l. length l.items ≤ lengths.most) }
    ensures fits { IfOk result (λ l. AllAfter (E.Fits elements.now) l.items) }
{
    let items = list(v, lengths.least, lengths.most, at)?;
    read_items(alloc, elements, items, at)
}
