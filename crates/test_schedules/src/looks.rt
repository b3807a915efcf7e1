//! Flights that stop in the middle, to print the state of the core or its answer to an event.

ghost use Rattle.fault_script.specs.Fits.{Fits};

use crate::halts::{Halt, Halts};
use crate::ruled::fly_some;
use crate::scripts::{rule_named, script_of};
use bank_words::Event;
use event_core::{Core, Illegal};
use scram_types::{ProcId, Script, Spec};
use std::io::{self, ErrorKind};
use std::rt::HostRuntime;
use test_kit::{number, print_image, split_word};

/// For each line of a row that begins with `after `, flies the script of the row for the number of events in the
/// line, and prints what the line requests.
pub(crate) fn look_row(rt: &HostRuntime, spec: &Spec, row: &str) -> io::Result<()> {
    let halt = Halts::of_row(row)?.halt(0);
    for line in row.split('\n') {
        if let Some(rest) = line.strip_prefix("after ") {
            println!(rt; "after {rest}")?;
            look_after(rt, spec, row, halt, rest)?;
        }
    }
    Ok(())
}

/// Flies the script of a row with the halt `halt`, for the number of events in `line`. Prints what the line requests.
fn look_after(rt: &HostRuntime, spec: &Spec, row: &str, halt: Halt, line: &str) -> io::Result<()> {
    let script = script_of(rt.alloc(), spec, row, halt)?;
    let looked = look(rt, spec, &script, line);
    drop(script);
    looked
}

/// Flies a script as a line `EVENTS RULE WORD` requests, and prints what the word requests.
fn look(rt: &HostRuntime, spec: &Spec, script: &Script, line: &str) -> io::Result<()>
    requires { Fits spec.now script.now }
{
    let (events, rest) = split_word(line);
    let (rule, word) = split_word(rest);
    let (rule, events) = (rule_named(rule)?, number(events)?);
    match fly_some(rt.alloc(), spec, script, rule, events) {
        Ok(mut core) => {
            let printed = print_word(rt, spec, &mut core, word);
            drop(core);
            printed
        }
        Err(_) => Err(ErrorKind::OutOfMemory.into()),
    }
}

fn print_word(rt: &HostRuntime, spec: &Spec, core: &mut Core, word: &str) -> io::Result<()> {
    let events = core.history().len();
    match word {
        "flip" => {
            let answer = core.step(Event::Flip(ProcId(0)), 0);
            print_answer(rt, core, events, answer)
        }
        "release" => {
            let answer = core.step(Event::Release, 0);
            print_answer(rt, core, events, answer)
        }
        "kernel" => print_kernel(rt, core),
        _ => print_seen(rt, spec, core),
    }
}

fn print_kernel(rt: &HostRuntime, core: &Core) -> io::Result<()> {
    let frame = core.kernel_frame();
    println!(rt;
        "events {}, kernel in frame {frame}, next {:?}",
        core.history().len(),
        core.next_kernel()
    )
}

/// Prints the core's answer to an event. If the core has refused the event, also prints the numbers of events of the
/// core before and after the refusal.
fn print_answer(
    rt: &HostRuntime,
    core: &Core,
    before: usize,
    answer: Result<(), Illegal>,
) -> io::Result<()> {
    match answer {
        Ok(()) => println!(rt; "made"),
        Err(illegal) => println!(rt;
            "refused, next {:?}, events {before} and {}",
            illegal.next,
            core.history().len()
        ),
    }
}

/// Prints the image of the first processor as the second processor has read it, or prints that the second processor
/// has not looked yet.
fn print_seen(rt: &HostRuntime, spec: &Spec, core: &Core) -> io::Result<()> {
    let Some(Event::Store(p, _)) = core.next_of(ProcId(1)) else {
        return println!(rt; "has not looked");
    };
    let snap = core.snapshot(p);
    print_image(rt, spec, 0, &snap.images[0])
}
