//! Reading a trace from its bytes.

ghost use Rattle.std.specs.Prelude.{◌≡◌, ◌≤◌, IfOk, Ok, length};
ghost use Rattle.trace_text.specs.Text.{text_of};
ghost use Rattle.trace_text.specs.TraceReading.{AnswersTrace, at_last, stopped, trace_of};

use crate::pieces::split_once;
use crate::progress::{Expected, Progress, Stop};
use crate::rule;
use scram_types::limits::MAX_TRACE_BYTES;
use scram_types::{Flown, List, Spec};
use std::alloc::Global;

/// The number of the first line that breaks a rule, counted from 1, and the number of the first rule that the line
/// breaks, 1 to 9. A trace that is too long breaks rule 9 at line 0.
#[derive(Clone, Copy)]
pub struct TraceFault {
    pub line: u32,
    pub rule: u8,
}

/// The error of reading bytes as a trace.
#[derive(Clone, Copy)]
pub enum TraceError {
    Fault(TraceFault),
    NoMemory,
}

/// Reads a trace from its bytes, and returns its rows and reports.
///
/// # Errors
///
/// Returns the first line that breaks a rule, with the first rule that it breaks, or `NoMemory` if memory runs out.
pub fn read_trace(alloc: Global, bytes: &[u8], spec: &Spec) -> Result<Flown, TraceError>
    ensures read { AnswersTrace (trace_of spec.now bytes.now) result }
    ensures text { IfOk result (λ flown. bytes.now ≡ text_of spec.now flown.rows flown.reports) }
    ensures again { IfOk result (λ flown. trace_of spec.now (text_of spec.now flown.rows flown.reports) ≡ Ok flown) }
{
    lists_are_short(spec);
    read_lines(alloc, bytes, spec)
}

// States that a specification has at most 6 factors and 8 applications.
fn lists_are_short(spec: &Spec)
    ensures factors { length spec.now.factors ≤ 6 }
    ensures apps { length spec.now.apps ≤ 8 }
{
    let _apps = spec.apps.items();
}

fn read_lines(alloc: Global, bytes: &[u8], spec: &Spec) -> Result<Flown, TraceError>
    ensures { AnswersTrace (trace_of spec.now bytes.now) result }
{
    if bytes.len() > MAX_TRACE_BYTES {
        return Err(TraceError::Fault(TraceFault {
            line: 0,
            rule: rule::WRONG_END,
        }));
    }
    let mut progress = Progress::new(alloc);
    let mut line: u32 = 1;
    let mut rest = bytes;
    while let Some((text, behind)) = split_once(rest, b'\n') {
        match progress.read_line(spec, text) {
            Ok(next) => progress = next,
            Err(stop) => return Err(stopped_at(line, stop)),
        }
        rest = behind;
        line += 1;
    }
    finish(progress, line, rest)
}

fn stopped_at(line: u32, stop: Stop) -> TraceError
    ensures { result ≡ stopped line stop }
{
    match stop {
        Stop::Rule(rule) => TraceError::Fault(TraceFault { line, rule }),
        Stop::NoMemory => TraceError::NoMemory,
    }
}

// Returns the flight that was read. Fails if the end line is missing, or if bytes follow the last line feed.
fn finish(progress: Progress, line: u32, last: &[u8]) -> Result<Flown, TraceError>
    ensures { AnswersTrace (at_last line progress last.now) result }
{
    if !last.is_empty() {
        return Err(TraceError::Fault(TraceFault {
            line,
            rule: rule::BROKEN_LINE,
        }));
    }
    match progress.expected {
        Expected::Over => Ok(Flown {
            rows: List::of(progress.rows),
            reports: List::of(progress.reports),
        }),
        Expected::Rows => Err(TraceError::Fault(TraceFault {
            line,
            rule: rule::WRONG_END,
        })),
        Expected::Apps(_, _) => Err(TraceError::Fault(TraceFault {
            line,
            rule: rule::WRONG_END,
        })),
        Expected::Reports => Err(TraceError::Fault(TraceFault {
            line,
            rule: rule::WRONG_END,
        })),
    }
}
