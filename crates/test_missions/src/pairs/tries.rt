//! Events that are made one by one.

ghost use Rattle.fault_script.specs.Fits.{Fits};
ghost use Rattle.scram_types.specs.Specification.{IsSpec};

use crate::pairs::halts::{halt_of_row, low_byte};
use app_model::empty_boxes;
use coverage_check::Mission;
use kernel_pair::{PairCore, PairEvent, UnitHalt};
use scram_types::{ProcId, Script, Spec};
use std::io::{self, ErrorKind};
use std::rt::HostRuntime;
use test_kit::number;

/// Makes the events of a row, and prints the result of each.
pub(crate) fn try_row(rt: &HostRuntime, mission: &Mission, row: &str) -> io::Result<()> {
    mission.holds();
    let halt = halt_of_row(row)?;
    try_halt(rt, mission.spec(), mission.script(), halt, row)
}

fn try_halt(
    rt: &HostRuntime,
    spec: &Spec,
    script: &Script,
    halt: Option<UnitHalt>,
    row: &str,
) -> io::Result<()>
    requires { Fits spec.now script.now }
{
    let boxes = empty_boxes(rt.alloc())?;
    match PairCore::open(rt.alloc(), spec, script, halt, boxes) {
        Ok(mut core) => {
            core.holds();
            try_lines(rt, &mut core, row)
        }
        Err(_) => Err(ErrorKind::OutOfMemory.into()),
    }
}

// The verifier treats a function that requires nothing of a mutable core as one that may make the boxes of the core.
// Therefore, these functions require a property that each core has.
fn try_lines(rt: &HostRuntime, core: &mut PairCore, row: &str) -> io::Result<()>
    requires { IsSpec core.old.spec }
{
    for line in row.split('\n') {
        if let Some(words) = line.strip_prefix("try ") {
            print!(rt; "{words}: ")?;
            core.holds();
            try_words(rt, core, words)?;
            println!(rt; "next {:?} and {:?}", core.next(0), core.next(1))?;
        }
    }
    Ok(())
}

/// Makes the event that `words` names, or for `go UNIT` all next events of the unit in order, and prints the result.
fn try_words(rt: &HostRuntime, core: &mut PairCore, words: &str) -> io::Result<()>
    requires { IsSpec core.old.spec }
{
    if let Some(unit) = words.strip_prefix("go ") {
        let made = go(core, number(unit)?);
        return print!(rt; "{made} made, ");
    }
    match core.step(event_of(words)?) {
        Ok(()) => print!(rt; "made, "),
        Err(event) => print!(rt; "given back {event:?}, "),
    }
}

/// Makes the next events of a unit until it has none, and returns the number of events. At most 1,000 events are
/// made. No row reaches this number.
fn go(core: &mut PairCore, unit: u32) -> u32
    requires { IsSpec core.old.spec }
{
    for made in 0..1_000 {
        match core.next((unit % 2) as u8) {
            Some(event) => {
                if core.step(event).is_err() {
                    return made;
                }
            }
            None => return made,
        }
    }
    1_000
}

/// Returns the event that `words` spells as a name and one or two numbers. A missing second number is 0. Returns an
/// error if there is no event of this name, or if a text is not a number.
fn event_of(words: &str) -> io::Result<PairEvent> {
    let (name, rest) = words.split_once(' ').unwrap_or((words, ""));
    let (first, second) = rest.split_once(' ').unwrap_or((rest, "0"));
    let (a, b) = (low_byte(number(first)?), low_byte(number(second)?));
    match name {
        "fly" => Ok(PairEvent::Fly(ProcId(a), b)),
        "note" => Ok(PairEvent::Note(a, ProcId(b))),
        "store" => Ok(PairEvent::Store(a, b)),
        "ready" => Ok(PairEvent::Ready(a)),
        "meet" => Ok(PairEvent::Meet(a)),
        "release" => Ok(PairEvent::Release(a)),
        "stop" => Ok(PairEvent::Stop(a)),
        _ => Err(ErrorKind::InvalidInput.into()),
    }
}
