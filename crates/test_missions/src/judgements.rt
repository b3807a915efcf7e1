//! Judgements of traces, which any program may have made.

ghost use Rattle.std.specs.Prelude.{◌<◌, ◌^◌, IsTrue, length};

use scram_types::limits::MAX_FRAMES;
use scram_types::{Flown, Report, Row, Spec};
use std::alloc::Global;
use std::io::{self, ErrorKind};
use std::rt::HostRuntime;
use test_kit::spec_of_text;
use trace_props::{Broken, props};
use trace_text::read_trace;

/// Returns the rows and reports of a trace, or an error if the text is not a trace.
pub fn parse_trace(alloc: Global, text: &str, spec: &Spec) -> io::Result<Flown> {
    match read_trace(alloc, text.as_bytes(), spec) {
        Ok(flown) => Ok(flown),
        Err(_) => Err(ErrorKind::InvalidData.into()),
    }
}

/// Reads and judges a trace, and prints the first property that it breaks, or that all properties hold.
pub fn judge(rt: &HostRuntime, spec: &str, trace: &str) -> io::Result<()> {
    let spec = spec_of_text(rt.alloc(), spec)?;
    judge_trace(rt, &spec, trace)
}

fn judge_trace(rt: &HostRuntime, spec: &Spec, trace: &str) -> io::Result<()> {
    let flown = parse_trace(rt.alloc(), trace, spec)?;
    print_judgement(rt, spec, flown.rows.items(), flown.reports.items())
}

/// Judges rows and reports, and prints the first property that they break, or that all properties hold.
pub fn print_judgement(
    rt: &HostRuntime,
    spec: &Spec,
    rows: &[Row],
    reports: &[Report],
) -> io::Result<()> {
    if !are_few(rows) {
        return Err(ErrorKind::InvalidData.into());
    }
    match props(spec, rows, reports) {
        Ok(()) => println!(rt; "all six properties hold"),
        Err(broken) => print_broken(rt, broken),
    }
}

/// Returns `true` if the number of rows is at most the maximum number of frames of a script.
fn are_few(rows: &[Row]) -> bool
    ensures { IsTrue result → length rows.now < 2 ^ 32 }
{
    rows.len() <= MAX_FRAMES as usize
}

fn print_broken(rt: &HostRuntime, broken: Broken) -> io::Result<()> {
    println!(rt;
        "broken: SP{} at frame {}",
        broken.property.number(),
        broken.frame
    )
}
