//! Flights over both decks: over words, and over a core under a lock.

ghost use Rattle.std.specs.Prelude.{◌≡◌, IfOk};
ghost use Rattle.event_core.specs.Cores.{IsOverIn};

use app_model::{Boxes, empty_boxes};
use coverage_check::Mission;
use event_core::Core;
use lock_deck::LockFlight;
use scram_types::Flown;
use std::alloc::AllocGlobal;
use std::io::{self, ErrorKind};
use std::sync::Wait;
use std::thread::Threads;
use word_deck::WordFlight;

/// The state that the threads of a flight share: words, or a core under a lock.
#[derive(Clone, Copy, Debug)]
pub enum Deck {
    Words,
    Lock,
}

/// Flies a mission with a thread for each processor and without boxes.
pub fn fly_over<R: AllocGlobal + Threads + Wait + Sync>(
    rt: &R,
    mission: &Mission,
    deck: Deck,
) -> io::Result<Flown> {
    let boxes = empty_boxes(rt.alloc())?;
    fly_with(rt, mission, deck, boxes)
}

/// Flies a mission with a thread for each processor, and with the boxes `boxes`.
pub fn fly_with<R: AllocGlobal + Threads + Wait + Sync>(
    rt: &R,
    mission: &Mission,
    deck: Deck,
    boxes: Boxes,
) -> io::Result<Flown> {
    match deck {
        Deck::Words => fly_over_words(rt, mission, None, boxes),
        Deck::Lock => Ok(fly_over_lock(rt, mission, None, boxes)?.finish()),
    }
}

/// Flies a mission over words, with a thread for each processor in `asked`, or for all processors if it is `None`.
pub fn fly_over_words<R: AllocGlobal + Threads + Wait + Sync>(
    rt: &R,
    mission: &Mission,
    asked: Option<[bool; 8]>,
    boxes: Boxes,
) -> io::Result<Flown> {
    let Ok(flight) = WordFlight::open(rt.alloc(), mission, boxes) else {
        return Err(ErrorKind::OutOfMemory.into());
    };
    match asked {
        Some(asked) => Ok(flight.run_on(rt, asked).flown),
        None => Ok(flight.run(rt).flown),
    }
}

/// Flies a mission over a lock, with a thread for each processor in `asked`, or for all processors if it is `None`.
/// Returns the core at the end of the flight.
pub fn fly_over_lock<'a, R: AllocGlobal + Threads + Wait + Sync>(
    rt: &R,
    mission: &'a Mission,
    asked: Option<[bool; 8]>,
    boxes: Boxes,
) -> io::Result<Core<'a>>
    ensures spec { IfOk result (λ core. core.spec ≡ mission.now.spec) }
    ensures over { IfOk result (λ core. IsOverIn core) }
{
    let Ok(flight) = LockFlight::open(rt.alloc(), mission, boxes) else {
        return Err(ErrorKind::OutOfMemory.into());
    };
    match asked {
        Some(asked) => Ok(flight.run_on(rt, asked)),
        None => Ok(flight.run(rt)),
    }
}
