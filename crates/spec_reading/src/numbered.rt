//! Lists of named items, which are numbered in the order of the list.

ghost use Rattle.std.specs.Prelude.{◌≡◌, ◌≤◌, ◌<◌, ◌+◌, ◌++◌, [], ◌∷◌, None, length, map, IfSome, IfOk};
ghost use Rattle.serde_json.specs.View.{view, items_view};
ghost use Rattle.scram_doc.specs.Faults.{Answers};
ghost use Rattle.scram_doc.specs.Lists.{AllAfter, elements_from, elements_at};
ghost use Rattle.spec_reading.specs.Numbering.{itself, index_named};

use crate::names::Naming;
use indexmap::IndexSet;
use scram_doc::{DocError, Lengths, Path, list};
use serde_json::Value;
use std::alloc::{AllocError, Global};
use std::marker::{Model, PhantomData};

/// A list of different names, each numbered by its index.
pub struct Numbers {
    names: IndexSet<String>,
}

// A derived drop is laid out in the proof of each function that drops the value, and this one is a call.
impl Drop for Numbers {
    fn drop(self) {
        let Numbers { names: _ } = self;
    }
}

impl Model for Numbers {
    ghost use Rattle.std.specs.Prelude.{List, ℕ, map};
    ghost use Rattle.std.specs.String.{string_bytes};

    ghost Value = { List (List ℕ) };

    ghost view = { λ n. map string_bytes n.names.keys };
}

impl Numbers {
    fn new(alloc: Global) -> Numbers
        ensures { result ≡ [] }
    {
        Numbers {
            names: IndexSet::new(alloc),
        }
    }

    fn number(&self, name: &str) -> Option<usize>
        ensures number { result ≡ index_named itself self.now name.now }
        ensures below { IfSome result (λ number. number < length self.now) }
    {
        self.names.get_index_of(name)
    }

    /// Appends a name, which must not be in the list. Returns an error if memory runs out.
    fn with(self, alloc: Global, name: &str) -> Result<Numbers, AllocError>
        requires { index_named itself self name.now ≡ None }
        ensures { IfOk result (λ numbers. numbers ≡ self ++ name.now ∷ []) }
    {
        let Numbers { mut names } = self;
        names.insert(String::from_str(alloc, name)?)?;
        Ok(Numbers { names })
    }
}

/// A list of items with different names.
pub struct Numbered<T, N: Naming<T>> {
    items: Vec<T>,
    numbers: Numbers,
    naming: PhantomData<N>,
}

// A derived drop is laid out in the proof of each function that drops the value, and this one is a call.
impl<T: Drop, N: Naming<T>> Drop for Numbered<T, N> {
    fn drop(self) {
        let Numbered {
            items: _,
            numbers: _,
            naming: _,
        } = self;
    }
}

impl<T, N: Naming<T>> Model for Numbered<T, N> {
    ghost use Rattle.std.specs.Prelude.{List, map, ◌≡◌};

    ghost Value = { List T };

    ghost view = { λ n. n.items.items };

    ghost invariant = { λ n. n.numbers ≡ map N.spelling n.items.items };
}

impl<T, N: Naming<T>> Numbered<T, N> {
    /// Creates a list of these items. `numbers` must be the list of the items' names, in order.
    pub fn of(items: Vec<T>, numbers: Numbers) -> Numbered<T, N>
        requires { numbers ≡ map N.spelling items.items }
        ensures { result ≡ items.items }
    {
        Numbered {
            items,
            numbers,
            naming: PhantomData,
        }
    }

    pub fn items(&self) -> &[T]
        ensures { result.now ≡ self.now }
    {
        &self.items
    }

    /// Returns the index of the item with this name, or `None` if there is no such item.
    pub fn number(&self, name: &str) -> Option<usize>
        ensures number { result ≡ index_named N.spelling self.now name.now }
        ensures below { IfSome result (λ number. number < length self.now) }
    {
        self.numbers.number(name)
    }

    /// Returns the items and the list of their names.
    pub fn into_parts(self) -> (Vec<T>, Numbers)
        ensures items { result.0.items ≡ self }
        ensures numbers { result.1 ≡ map N.spelling self }
    {
        let Numbered {
            items,
            numbers,
            naming: _,
        } = self;
        (items, numbers)
    }

    /// Returns the items in order.
    pub fn into_items(self) -> Vec<T>
        ensures { result.items ≡ self }
    {
        self.into_parts().0
    }
}

impl<T: Drop, N: Naming<T>> Numbered<T, N> {
    fn new(alloc: Global) -> Numbered<T, N>
        ensures { result ≡ [] }
    {
        Numbered {
            items: Vec::new(alloc),
            numbers: Numbers::new(alloc),
            naming: PhantomData,
        }
    }

    /// Appends an item. No item of the list may have its name. Returns an error if memory runs out.
    fn with(self, alloc: Global, item: T) -> Result<Numbered<T, N>, AllocError>
        requires { index_named N.spelling self (N.spelling item) ≡ None }
        ensures { IfOk result (λ numbered. numbered ≡ self ++ item ∷ []) }
    {
        let Numbered {
            mut items,
            numbers,
            naming: _,
        } = self;
        let numbers = numbers.with(alloc, N::name(&item))?;
        items.push(item)?;
        Ok(Numbered {
            items,
            numbers,
            naming: PhantomData,
        })
    }
}

/// A reader of the elements of a list. Each element has a name, and may depend on the elements before it.
pub trait NamedElements<T: Drop, N: Naming<T>> {
    ghost use Rattle.std.specs.Prelude.{◌≡◌, ◌≤◌, List, ℕ, None, Result, IfOk, length};
    ghost use Rattle.serde_json.specs.Data.{Data};
    ghost use Rattle.serde_json.specs.View.{view};
    ghost use Rattle.scram_doc.specs.declared.fault.DocFault.{DocFault};
    ghost use Rattle.scram_doc.specs.Faults.{Answers};
    ghost use Rattle.spec_reading.specs.Numbering.{index_named};

    /// The maximum length of the path of an element.
    ghost room: { ℕ };

    /// The element that a value encodes, given its path, the elements before it and the value.
    ghost reading: { Self → List ℕ → List T → Data → Result T DocFault };

    /// The property that each element satisfies together with the elements before it.
    ghost Fits: { Self → List T → T → Type 0 };

    /// Returns the element that the value `v` at path `at` encodes, given the elements `done` before it.
    ///
    /// # Errors
    ///
    /// Returns a fault of the rule that the value breaks, and `NoMemory` if memory runs out.
    fn read(
        &self,
        alloc: Global,
        done: &Numbered<T, N>,
        v: &Value,
        at: &Path,
    ) -> Result<T, DocError>
        requires room { length at.now ≤ room }
        ensures value { Answers (reading self.now at.now done.now (view v.now)) (λ x. x) result }
        ensures fits { IfOk result (λ x. Fits self.now done.now x) };

    /// If `Fits` holds for an element and the elements before it, no element before it has its name.
    ghost is_new: { (e : Self) (done : List T) (x : T) → Fits e done x → index_named N.spelling done (N.spelling x) ≡ None };
}

pub fn read_named_items<T: Drop, N: Naming<T>, E: NamedElements<T, N>>(
    alloc: Global,
    elements: &E,
    items: &[Value],
    at: &Path,
) -> Result<Numbered<T, N>, DocError>
    requires room { length at.now + 6 ≤ E.room }
    requires path { length at.now ≤ 58 }
    requires few { length items.now ≤ 100000 }
    ensures value { Answers (elements_from (E.reading elements.now) at.now 0 [] (items_view items.now)) (λ l. l) result }
    ensures count { IfOk result (λ l. length l ≡ length items.now) }
    ensures fits { IfOk result (λ l. AllAfter (E.Fits elements.now) l) }
{
    let mut done = Numbered::new(alloc);
    for (i, v) in items.iter().enumerate() {
        let element = elements.read(alloc, &done, v, &at.item(i))?;
        done = done.with(alloc, element)?;
    }
    Ok(done)
}

/// Returns the elements of the list `v` at path `at`. The length of the list must be within `lengths`. Each element
/// has a name.
///
/// # Errors
///
/// Returns a fault of rule 5 if the value is not a list, of rule 6 if its length is not within `lengths`, and
/// otherwise of the rule that the first faulty element breaks. Returns `NoMemory` if memory runs out.
pub fn read_named_list<T: Drop, N: Naming<T>, E: NamedElements<T, N>>(
    alloc: Global,
    elements: &E,
    v: &Value,
    lengths: Lengths,
    at: &Path,
) -> Result<Numbered<T, N>, DocError>
    requires room { length at.now + 6 ≤ E.room }
    requires path { length at.now ≤ 58 }
    requires few { lengths.most ≤ 100000 }
    ensures value { Answers (elements_at (E.reading elements.now) lengths.least lengths.most at.now (view v.now)) (λ l. l) result }
    ensures least { IfOk result (λ l. lengths.least ≤ length l) }
    ensures most { IfOk result (λ l. length l ≤ lengths.most) }
    ensures fits { IfOk result (λ l. AllAfter (E.Fits elements.now) l) }
{
    let items = list(v, lengths.least, lengths.most, at)?;
    read_named_items(alloc, elements, items, at)
}
