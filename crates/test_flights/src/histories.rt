//! Flights over a lock that are flown again by their histories.

ghost use Rattle.std.specs.Prelude.{◌≡◌};
ghost use Rattle.event_core.specs.Cores.{IsOverIn};

use crate::decks::fly_over_lock;
use app_model::empty_boxes;
use bank_words::Event;
use coverage_check::Mission;
use event_core::Core;
use schedule_replay::laws::history_is_known;
use schedule_replay::{read_schedule, replay, write_schedule};
use scram_types::Flown;
use std::alloc::{AllocGlobal, Global};
use std::io::{self, ErrorKind};
use std::sync::Wait;
use std::thread::Threads;

/// Flies a mission over a lock, with a thread for each processor in `asked`, or for all processors if it is `None`.
/// Returns the result, and the text of the history.
pub fn fly_and_write<R: AllocGlobal + Threads + Wait + Sync>(
    rt: &R,
    mission: &Mission,
    asked: Option<[bool; 8]>,
) -> io::Result<(Flown, Vec<u8>)> {
    let boxes = empty_boxes(rt.alloc())?;
    match fly_over_lock(rt, mission, asked, boxes) {
        Ok(core) => finish(rt.alloc(), mission, core),
        Err(error) => Err(error),
    }
}

/// Returns the result of a flight that is over, and the text of its history.
fn finish(alloc: Global, mission: &Mission, core: Core) -> io::Result<(Flown, Vec<u8>)>
    requires spec { core.spec ≡ mission.now.spec }
    requires over { IsOverIn core }
{
    match write_history(alloc, mission, &core) {
        Ok(text) => Ok((core.finish(), text)),
        Err(error) => {
            drop(core);
            Err(error)
        }
    }
}

fn write_history(alloc: Global, mission: &Mission, core: &Core) -> io::Result<Vec<u8>>
    requires { core.now.spec ≡ mission.now.spec }
{
    history_is_known(core, mission.spec());
    match write_schedule(alloc, core.history(), mission.spec()) {
        Ok(text) => Ok(text),
        Err(_) => Err(ErrorKind::OutOfMemory.into()),
    }
}

/// Reads the text of a history, flies a mission by it on one thread, and returns the result. Returns an error if the
/// history is not a schedule of the whole flight.
pub fn fly_again<R: AllocGlobal>(rt: &R, mission: &Mission, text: &[u8]) -> io::Result<Flown> {
    match read_schedule(rt.alloc(), text, mission.spec()) {
        Ok(events) => replay_events(rt, mission, &events),
        Err(_) => Err(ErrorKind::InvalidData.into()),
    }
}

fn replay_events<R: AllocGlobal>(rt: &R, mission: &Mission, events: &[Event]) -> io::Result<Flown> {
    let boxes = empty_boxes(rt.alloc())?;
    mission.holds();
    let (spec, script) = (mission.spec(), mission.script());
    match replay(rt.alloc(), spec, script, boxes, events) {
        Ok(flown) => Ok(flown),
        Err(_) => Err(ErrorKind::InvalidData.into()),
    }
}
