//! The last call of an application, which a box remembers.

ghost use Rattle.std.specs.Prelude.{◌≡◌, IfSome, IsSome};
ghost use Rattle.app_model.specs.Law.{law};

use crate::comparisons::{same_order, same_seen};
use crate::seen::Seen;
use scram_types::{Area, Order};

/// The last call of an application: the kind, the order, the view of the application, and the answer. The answer is
/// the area that the law of the kind defines for this call.
#[derive(Clone, Copy)]
pub struct LastCall {
    kind: u8,
    order: Order,
    seen: Seen,
    answer: Area,
    ghost right: { answer ≡ law kind order seen },
}

impl LastCall {
    /// Returns the call of an application of kind `kind` with this order, view and answer.
    pub fn of(kind: u8, order: Order, seen: &Seen, answer: &Area) -> LastCall
        requires { answer.now ≡ law kind order seen.now }
        ensures kind { result.kind ≡ kind }
        ensures order { result.order ≡ order }
        ensures seen { result.seen ≡ seen.now }
        ensures answer { result.answer ≡ answer.now }
    {
        LastCall {
            kind,
            order,
            seen: *seen,
            answer: *answer,
        }
    }

    /// Returns the remembered answer if this call is the same as the remembered call, or `None` if it differs.
    pub fn answer_to(&self, kind: u8, order: Order, seen: &Seen) -> Option<Area>
        ensures law { IfSome result (λ area. area ≡ law kind order seen.now) }
        ensures again { self.now.kind ≡ kind → self.now.order ≡ order → self.now.seen ≡ seen.now → IsSome result }
    {
        if self.kind == kind && same_order(self.order, order) && same_seen(&self.seen, seen) {
            Some(self.answer)
        } else {
            None
        }
    }
}
