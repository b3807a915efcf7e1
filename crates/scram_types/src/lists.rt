//! A list of which contracts see only the items.

ghost use Rattle.std.specs.Prelude.{◌≡◌};

/// A list of items in order. Contracts see the items but not the capacity, so a value that contains a list can equal
/// the value of a definition.
pub struct List<T> {
    items: Vec<T>,
}

// A derived drop is laid out in the proof of each function that drops the value, and this one is a call.
impl<T: Drop> Drop for List<T> {
    fn drop(self) {
        let List { items: _ } = self;
    }
}

impl<T> std::marker::Model for List<T> {
    ghost use Rattle.std.specs.Prelude.{List};

    ghost Value = { List T };

    ghost view = { λ a. a.items.items };
}

impl<T> List<T> {
    /// Creates the list of these items.
    pub fn of(items: Vec<T>) -> List<T>
        ensures { result ≡ items.items }
    {
        List { items }
    }

    /// Returns the items, in order.
    pub fn items(&self) -> &[T]
        ensures { result.now ≡ self.now }
    {
        &self.items
    }

    /// Returns the items as a vector.
    pub fn into_items(self) -> Vec<T>
        ensures { result.items ≡ self }
    {
        let List { items } = self;
        items
    }
}
