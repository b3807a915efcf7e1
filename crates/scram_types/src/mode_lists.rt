//! Short lists of modes.

ghost use Rattle.std.specs.Prelude.{◌≡◌, ◌<◌, ◌≤◌, ◌++◌, List, [], ◌∷◌, length};
ghost use Rattle.scram_types.specs.ModeLists.{is_among};

use crate::ids::Mode;

/// A list of up to three modes, in order. Contracts see it as a list of modes.
#[derive(Clone, Copy)]
pub struct Modes {
    items: [Mode; 3],
    count: u8,
}

impl std::marker::Model for Modes {
    ghost use Rattle.std.specs.Prelude.{List, length, take};
    ghost use Rattle.scram_types.specs.declared.ids.Mode.{Mode};
    ghost use Rattle.scram_types.specs.ModeLists.{IsPadded, padded};

    ghost Value = { List Mode };

    ghost view = { λ m. take m.count m.items };

    ghost invariant = { λ m. IsPadded m.count m.items };

    ghost inverse = { λ modes. record { items = padded modes; count = length modes } };

    ghost inverse_ok = { λ m h i. record { items = h.padded i; count = h.counted i } };
}

impl Modes {
    /// Creates an empty list of modes.
    pub fn new() -> Modes
        ensures { result ≡ [] }
    {
        Modes {
            items: [Mode(0); 3],
            count: 0,
        }
    }

    /// Appends a mode to the list, which must have fewer than three modes.
    pub fn push(&mut self, mode: Mode)
        requires { length self.old < 3 }
        ensures { self.new ≡ self.old ++ mode ∷ [] }
    {
        self.items[usize::from(self.count)] = mode;
        self.count += 1;
    }

    /// Returns `true` if a mode is in the list.
    pub fn has(&self, mode: Mode) -> bool
        ensures { result ≡ is_among self.now mode.0 }
    {
        self.as_slice().iter().any(|listed| listed.0 == mode.0)
    }

    /// Returns the modes, in order.
    pub fn as_slice(&self) -> &[Mode]
        ensures modes { result.now ≡ self.now }
        ensures few { length result.now ≤ 3 }
    {
        &self.items[..usize::from(self.count)]
    }
}
