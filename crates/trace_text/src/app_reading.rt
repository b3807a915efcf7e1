//! Reading the line of an application.

ghost use Rattle.std.specs.Prelude.{◌≡◌, ◌<◌, ◌≤◌, IfOk, length};
ghost use Rattle.trace_text.specs.AppReading.{app_in, app_read, bare_act, bare_line, is_bare_form, is_placed_form, phase_act, phase_line, phase_named, placed_line, ran_line};
ghost use Rattle.trace_text.specs.Spelling.{signed_from};

use crate::lookups::{find_app, find_mode};
use crate::numbers::{read_eight, read_number};
use crate::pieces::slash_sides;
use crate::rule;
use crate::words::Words;
use scram_types::limits::MAX_PHASE;
use scram_types::{Act, Area, ProcId, Spec};

/// The act and the area of an application in a frame.
#[derive(Clone, Copy)]
pub struct Done {
    pub act: Act,
    pub area: Area,
}

/// A phase whose frames are numbered in the acts of an application.
#[derive(Clone, Copy)]
pub enum Phase {
    Halting,
    Preparing,
    Initialising,
}

// The frame of a phase and the length of the phase are below this limit, so that they fit in 8 bits.
const PHASE_LIMIT: u64 = 256;

/// Reads a line as the line of application `next`. Returns the application's act and area, or the first rule that the
/// line breaks.
pub fn read_app(spec: &Spec, next: u8, line: &[u8]) -> Result<Done, u8>
    ensures done { result ≡ app_read spec.now next line.now }
    ensures below { IfOk result (λ done. next < length spec.now.apps) }
{
    match Words::of(line) {
        Some(words) => read_app_words(spec, next, &words),
        None => Err(rule::NO_FORM),
    }
}

fn read_app_words(spec: &Spec, next: u8, words: &Words<'_>) -> Result<Done, u8>
    ensures done { result ≡ app_in spec.now next words.now }
    ensures below { IfOk result (λ done. next < length spec.now.apps) }
{
    if is_placed(words) {
        return read_placed(spec, next, words);
    }
    if !is_bare(words) {
        return Err(rule::NO_FORM);
    }
    match find_bare(words.word_at(2)) {
        Some(act) => read_bare(spec, next, words, act),
        None => Err(rule::NO_FORM),
    }
}

fn is_placed(words: &Words<'_>) -> bool
    ensures { result ≡ is_placed_form words.now }
{
    words.len() == 14 && words.is(5, b":")
}

fn is_bare(words: &Words<'_>) -> bool
    ensures { result ≡ is_bare_form words.now }
{
    words.len() == 12 && words.is(3, b":")
}

// Returns the act without a processor that a word names, or `None` if it names no such act.
fn find_bare(tag: &[u8]) -> Option<Act>
    ensures { result ≡ bare_act tag.now }
{
    if tag == b"held".as_slice() {
        Some(Act::Held)
    } else if tag == b"off".as_slice() {
        Some(Act::Off)
    } else if tag == b"lost".as_slice() {
        Some(Act::Lost)
    } else {
        None
    }
}

fn find_phase(tag: &[u8]) -> Option<Phase>
    ensures { result ≡ phase_named tag.now }
{
    if tag == b"halting".as_slice() {
        Some(Phase::Halting)
    } else if tag == b"preparing".as_slice() {
        Some(Phase::Preparing)
    } else if tag == b"initialising".as_slice() {
        Some(Phase::Initialising)
    } else {
        None
    }
}

fn act_of(phase: Phase, k: u8, n: u8, proc: ProcId) -> Act
    ensures { result ≡ phase_act phase k n proc }
{
    match phase {
        Phase::Halting => Act::Halting(k, n, proc),
        Phase::Preparing => Act::Preparing(k, n, proc),
        Phase::Initialising => Act::Initialising(k, n, proc),
    }
}

// Reads the words of an application whose act has a processor. The third word has to be `ran` or the name of a phase.
fn read_placed(spec: &Spec, next: u8, words: &Words<'_>) -> Result<Done, u8>
    ensures done { result ≡ placed_line spec.now next words.now }
    ensures below { IfOk result (λ done. next < length spec.now.apps) }
{
    if words.is(2, b"ran") {
        return read_ran(spec, next, words);
    }
    let Some(phase) = find_phase(words.word_at(2)) else {
        return Err(rule::NO_FORM);
    };
    match slash_sides(words.word_at(3)) {
        Some(sides) => read_phase(spec, next, words, phase, sides),
        None => Err(rule::NO_FORM),
    }
}

fn read_ran(spec: &Spec, next: u8, words: &Words<'_>) -> Result<Done, u8>
    ensures done { result ≡ ran_line spec.now next words.now }
    ensures below { IfOk result (λ done. next < length spec.now.apps) }
{
    let Some(app) = find_app(spec, words.word_at(1)) else {
        return Err(rule::UNKNOWN_NAME);
    };
    let Some(mode) = find_mode(spec, app, words.word_at(3)) else {
        return Err(rule::UNKNOWN_NAME);
    };
    let Some(proc) = spec.proc_named(words.word_at(4)) else {
        return Err(rule::UNKNOWN_NAME);
    };
    let Some(area) = read_area(words, 6) else {
        return Err(rule::WRONG_NUMBER);
    };
    if app != usize::from(next) {
        return Err(rule::NOT_NEXT);
    }
    Ok(Done {
        act: Act::Ran(mode, proc),
        area,
    })
}

fn read_phase(
    spec: &Spec,
    next: u8,
    words: &Words<'_>,
    phase: Phase,
    sides: (&[u8], &[u8]),
) -> Result<Done, u8>
    ensures done { result ≡ phase_line spec.now next words.now phase (sides.entry.0.now, sides.entry.1.now) }
    ensures below { IfOk result (λ done. next < length spec.now.apps) }
{
    let Some(app) = find_app(spec, words.word_at(1)) else {
        return Err(rule::UNKNOWN_NAME);
    };
    let Some(proc) = spec.proc_named(words.word_at(4)) else {
        return Err(rule::UNKNOWN_NAME);
    };
    let Some(k) = read_number(sides.0, PHASE_LIMIT) else {
        return Err(rule::WRONG_NUMBER);
    };
    let Some(n) = read_number(sides.1, PHASE_LIMIT) else {
        return Err(rule::WRONG_NUMBER);
    };
    let Some(area) = read_area(words, 6) else {
        return Err(rule::WRONG_NUMBER);
    };
    if app != usize::from(next) {
        return Err(rule::NOT_NEXT);
    }
    if !(k < n && n <= u64::from(MAX_PHASE)) {
        return Err(rule::OUT_OF_ORDER);
    }
    Ok(Done {
        act: act_of(phase, k as u8, n as u8, proc),
        area,
    })
}

// Reads the words of an application whose act has no processor.
fn read_bare(spec: &Spec, next: u8, words: &Words<'_>, act: Act) -> Result<Done, u8>
    ensures done { result ≡ bare_line spec.now next words.now act }
    ensures below { IfOk result (λ done. next < length spec.now.apps) }
{
    let Some(app) = find_app(spec, words.word_at(1)) else {
        return Err(rule::UNKNOWN_NAME);
    };
    let Some(area) = read_area(words, 4) else {
        return Err(rule::WRONG_NUMBER);
    };
    if app != usize::from(next) {
        return Err(rule::NOT_NEXT);
    }
    Ok(Done { act, area })
}

fn read_area(words: &Words<'_>, from: usize) -> Option<Area>
    requires { from ≤ 6 }
    ensures { result ≡ signed_from 8 from words.now }
{
    match read_eight(words, from) {
        Some(values) => values.into_inner().ok(),
        None => None,
    }
}
