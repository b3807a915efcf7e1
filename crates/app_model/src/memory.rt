//! Boxes that remember their last call, for applications of any kind.

ghost use Rattle.std.specs.Prelude.{◌≡◌, ℕ};
ghost use Rattle.app_model.specs.Law.{law};

use crate::app::App;
use crate::calls::LastCall;
use crate::seen::Seen;
use scram_types::{Area, KindId, Order};
use std::marker::PhantomData;

/// A kind and the function that computes its law.
pub trait KindLaw: Drop {
    ghost number: { ℕ };

    /// Returns the kind's number.
    fn kind() -> KindId
        ensures { result.0 ≡ number };

    /// Returns the area of an application of the kind after a frame with this order, by the kind's law.
    fn area_after(order: Order, seen: &Seen) -> Area
        ensures { result ≡ law number order seen.now };
}

/// A box of a kind that remembers its last call. If the next call equals the last call, the box repeats the last
/// answer.
#[derive(Drop)]
pub struct Remembering<L: KindLaw> {
    last: Option<LastCall>,
    law: PhantomData<L>,
}

impl<L: KindLaw> Remembering<L> {
    /// Creates a box that has not been called.
    pub fn new() -> Remembering<L> {
        Remembering {
            last: None,
            law: PhantomData,
        }
    }
}

impl<L: KindLaw> App for Remembering<L> {
    ghost kind_of = { λ _. L.number };

    fn kind(&self) -> KindId {
        L::kind()
    }

    fn frame(&mut self, order: Order, seen: &Seen) -> Area {
        let kind = L::kind().0;
        if let Some(last) = &self.last {
            if let Some(answer) = last.answer_to(kind, order, seen) {
                return answer;
            }
        }
        let answer = L::area_after(order, seen);
        self.last = Some(LastCall::of(kind, order, seen, &answer));
        answer
    }
}
