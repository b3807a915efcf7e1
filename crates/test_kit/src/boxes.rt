//! Boxes that count their calls.

use crate::calls::Calls;
use app_model::{App, Seen};
use scram_types::{Area, KindId, Order};
use std::hint::spin_loop;
use std::sync::atomic::Ordering;

/// The maximum number of times that a box checks whether the awaited call has come.
const TURNS: u32 = 50_000_000;

/// A wrapper of a box. It counts the calls of the box and returns the box's results. If `awaited` is given, each call
/// first spins until a box of the awaited rack has been called, or until `TURNS` checks have been made.
#[derive(Drop)]
pub struct Counted<B: App> {
    app: B,
    calls: &'static Calls,
    awaited: Option<&'static Calls>,
}

impl<B: App> Counted<B> {
    /// Creates a box that counts its calls in `calls` and, if `awaited` is given, waits for a call that is counted
    /// there.
    pub fn new(app: B, calls: &'static Calls, awaited: Option<&'static Calls>) -> Counted<B> {
        Counted {
            app,
            calls,
            awaited,
        }
    }
}

impl<B: App> App for Counted<B> {
    ghost kind_of = { λ counted. B.kind_of counted.app };

    fn kind(&self) -> KindId {
        self.app.kind()
    }

    fn frame(&mut self, order: Order, seen: &Seen) -> Area {
        count(self.calls, self.app.kind());
        if let Some(awaited) = self.awaited {
            if !wait_for(awaited) {
                self.calls.in_vain.fetch_add(1, Ordering::SeqCst);
            }
        }
        self.app.frame(order, seen)
    }
}

fn count(calls: &Calls, kind: KindId) {
    if let Some(calls) = calls.kinds.get(usize::from(kind.0)) {
        calls.fetch_add(1, Ordering::SeqCst);
    }
}

/// Spins until `calls` counts a call of a box, or until `TURNS` checks have been made. Returns `true` if a call has
/// been counted.
fn wait_for(calls: &Calls) -> bool {
    for _ in 0..TURNS {
        if calls.any() {
            return true;
        }
        spin_loop();
    }
    false
}
