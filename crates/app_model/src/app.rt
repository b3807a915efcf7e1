//! Applications as objects that callers pass in.

ghost use Rattle.std.specs.Prelude.{◌≡◌, ℕ};
ghost use Rattle.app_model.specs.Law.{law};

use crate::seen::Seen;
use scram_types::{Area, KindId, Order};

/// An application of a kind. It may keep any state, but the area that it returns in a frame depends only on the order
/// and on what the application sees.
pub trait App: Drop {
    ghost kind_of: { Self → ℕ };

    /// Returns the application's kind.
    fn kind(&self) -> KindId
        ensures { result.0 ≡ kind_of self.now };

    /// Returns the application's area after a frame with this order, by the law of its kind, whatever state the
    /// object keeps. This holds for every order, mode, area, world, goal and value of a factor. The kind does not
    /// change.
    fn frame(&mut self, order: Order, seen: &Seen) -> Area
        ensures answer { result ≡ law (kind_of self.old) order seen.now }
        ensures same { kind_of self.new ≡ kind_of self.old };
}
