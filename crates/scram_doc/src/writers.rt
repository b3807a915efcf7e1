//! The canonical values of lists.

ghost use Rattle.std.specs.Prelude.{◌≡◌, map, IfOk};
ghost use Rattle.serde_json.specs.View.{view};

use serde_json::Value;
use std::alloc::{AllocError, Global};

/// A writer of the items of a list as JSON values.
pub trait Writes<T> {
    ghost use Rattle.std.specs.Prelude.{◌≡◌, IfOk};
    ghost use Rattle.serde_json.specs.Data.{Data};
    ghost use Rattle.serde_json.specs.View.{view};

    /// The value that is written for an item.
    ghost written: { Self → T → Data };

    /// Returns the value that is written for an item. Returns an error if memory runs out.
    fn value(&self, alloc: Global, item: &T) -> Result<Value, AllocError>
        ensures { IfOk result (λ v. view v ≡ written self.now item.now) };
}

/// Returns the values that are written for the items of a list, in order. Returns an error if memory runs out.
pub fn write_list<T, W: Writes<T>>(
    alloc: Global,
    writer: &W,
    items: &[T],
) -> Result<Vec<Value>, AllocError>
    ensures { IfOk result (λ vs. map view vs.items ≡ map (W.written writer.now) items.now) }
{
    let mut values = Vec::new(alloc);
    for item in items {
        let value = writer.value(alloc, item)?;
        serde_json::push(&mut values, value)?;
    }
    Ok(values)
}
