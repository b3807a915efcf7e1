//! Flights that are repeated so that they can be timed.

use crate::decks::{Deck, fly_over};
use crate::documents::read_mission;
use coverage_check::Mission;
use scram_types::Flown;
use std::alloc::AllocGlobal;
use std::io::{self, ErrorKind};
use std::rt::HostRuntime;
use std::sync::Wait;
use std::thread::Threads;
use test_kit::{fly_alone, number, split_word};

/// Flies a mission over a deck a number of times. Prints the number of rows of the last flight, and the number of
/// flights that had a row for each frame. The deck, the number and the names of the mission's files are in `words`.
pub fn repeat<R: AllocGlobal + Threads + Wait + Sync>(
    rt: &HostRuntime,
    threads: &R,
    words: &str,
) -> io::Result<()> {
    let (deck, rest) = split_word(words);
    let (times, names) = split_word(rest);
    let deck = deck_named(deck)?;
    let times = number(times)?;
    let mission = read_mission(rt, names)?;
    let flown = repeat_mission(rt, threads, deck, times, &mission);
    drop(mission);
    flown
}

fn repeat_mission<R: AllocGlobal + Threads + Wait + Sync>(
    rt: &HostRuntime,
    threads: &R,
    deck: Option<Deck>,
    times: u32,
    mission: &Mission,
) -> io::Result<()> {
    let frames = mission.script().frames as usize;
    let mut rows = 0usize;
    let mut whole = 0u32;
    for _ in 0..times {
        rows = fly_once(threads, mission, deck)?.rows.items().len();
        if rows == frames {
            whole = whole.saturating_add(1);
        }
    }
    println!(rt; "rows {rows}, whole {whole} of {times}")
}

fn fly_once<R: AllocGlobal + Threads + Wait + Sync>(
    rt: &R,
    mission: &Mission,
    deck: Option<Deck>,
) -> io::Result<Flown> {
    match deck {
        Some(deck) => fly_over(rt, mission, deck),
        None => fly_alone(rt.alloc(), mission),
    }
}

/// Returns the deck that `name` names. Returns `None` for `one`, the name of flights on one thread, and an error for
/// any other name.
fn deck_named(name: &str) -> io::Result<Option<Deck>> {
    match name {
        "words" => Ok(Some(Deck::Words)),
        "lock" => Ok(Some(Deck::Lock)),
        "one" => Ok(None),
        _ => Err(ErrorKind::InvalidInput.into()),
    }
}
