//! The reading and the writing of an event as a line of a schedule.

ghost use Rattle.std.specs.Prelude.{◌≡◌, ◌+◌, ◌≤◌, ◌<◌, ◌*◌, ◌++◌, IfOk, IfSome, length};
ghost use Rattle.scram_types.specs.declared.limits.TheConstants.{MAX_LINE_BYTES};
ghost use Rattle.scram_types.specs.Lookups.{proc_name, proc_named};
ghost use Rattle.trace_text.specs.Pieces.{word_at};
ghost use Rattle.trace_text.specs.Spelling.{spelled_number};
ghost use Rattle.schedule_replay.specs.Events.{HasEvent, event_line, event_text};
ghost use Rattle.schedule_replay.specs.Reading.{event_read, event_told, is_legible, verb_of, words_for};

use crate::limits::MAX_EVENT_BYTES;
use crate::rule;
use crate::verbs::{Verb, verb_named, word_count};
use bank_words::{Event, words};
use scram_types::{ProcId, Spec};
use trace_text::lines::Line;
use trace_text::numbers::read_number;
use trace_text::progress::is_printable_text;
use trace_text::words::{Words, first_word};

/// Appends the text of `event` to `line`. The text has at most 64 bytes.
pub fn add_event(line: &mut Line, spec: &Spec, event: Event)
    requires { length line.old + 64 ≤ MAX_LINE_BYTES }
    ensures text { line.new ≡ line.old ++ event_text spec.now event }
    ensures short { length line.new ≤ length line.old + 64 }
{
    match event {
        Event::Start(p) => add_proc(line, b"start ", spec, p),
        Event::Look(p, q) => {
            add_proc(line, b"look ", spec, p);
            add_proc(line, b" ", spec, q);
        }
        Event::Store(p, i) => {
            add_proc(line, b"store ", spec, p);
            line.text(b" ");
            line.number(u32::from(i));
        }
        Event::Flip(p) => add_proc(line, b"flip ", spec, p),
        Event::Done(p) => add_proc(line, b"done ", spec, p),
        Event::Halt(p) => add_proc(line, b"halt ", spec, p),
        Event::KNote(p) => add_proc(line, b"note ", spec, p),
        Event::KStore(i) => {
            line.text(b"kstore ");
            line.number(u32::from(i));
        }
        Event::Release => line.text(b"release"),
    }
}

// Appends `text` and the name of processor `p` to `line`.
fn add_proc(line: &mut Line, text: &[u8], spec: &Spec, p: ProcId)
    requires short { length text.now ≤ 8 }
    requires room { length line.old + 24 ≤ MAX_LINE_BYTES }
    ensures text { line.new ≡ line.old ++ text.now ++ proc_name spec.now p.0 }
    ensures short { length line.new ≤ length line.old + length text.now + 16 }
{
    line.text(text);
    line.text(spec.proc_name(p).as_bytes());
}

/// Returns the line of an event, with its line feed.
pub fn make_event_line(spec: &Spec, event: Event) -> Line
    ensures { result ≡ event_line spec.now event }
{
    let mut line = Line::new();
    add_event(&mut line, spec, event);
    line.text(b"\n");
    line
}

/// Returns the event that a line encodes, or the number of the first rule that the line breaks. The line is given
/// without its line feed.
pub fn read_event(spec: &Spec, line: &[u8]) -> Result<Event, u8>
    ensures event { result ≡ event_read spec.now line.now }
    ensures known { IfOk result (λ event. HasEvent spec.now event) }
{
    if !is_legible(line) {
        return Err(rule::BROKEN_LINE);
    }
    let Some(verb) = verb_of(line) else {
        return Err(rule::UNKNOWN_WORD);
    };
    let Some(words) = words_for(verb, line) else {
        return Err(rule::NO_FORM);
    };
    match event_told(spec, verb, &words) {
        Some(event) => Ok(event),
        None => Err(rule::UNKNOWN_EVENT),
    }
}

fn is_legible(line: &[u8]) -> bool
    ensures { result ≡ is_legible line.now }
{
    line.len() <= MAX_EVENT_BYTES && is_printable_text(line)
}

fn verb_of(line: &[u8]) -> Option<Verb>
    ensures { result ≡ verb_of line.now }
{
    verb_named(first_word(line))
}

fn words_for<'a>(verb: Verb, line: &'a [u8]) -> Option<Words<'a>>
    ensures { result ≡ words_for verb line.now }
{
    let words = Words::of(line)?;
    if words.len() == word_count(verb) {
        Some(words)
    } else {
        None
    }
}

fn event_told(spec: &Spec, verb: Verb, words: &Words<'_>) -> Option<Event>
    ensures event { result ≡ event_told spec.now verb words.now }
    ensures known { IfSome result (λ event. HasEvent spec.now event) }
{
    match verb {
        Verb::Start => Some(Event::Start(proc_at(spec, words, 1)?)),
        Verb::Look => Some(Event::Look(proc_at(spec, words, 1)?, proc_at(spec, words, 2)?)),
        Verb::Store => Some(Event::Store(
            proc_at(spec, words, 1)?,
            word_below(image_words(spec), words, 2)?,
        )),
        Verb::Flip => Some(Event::Flip(proc_at(spec, words, 1)?)),
        Verb::Done => Some(Event::Done(proc_at(spec, words, 1)?)),
        Verb::Halt => Some(Event::Halt(proc_at(spec, words, 1)?)),
        Verb::Note => Some(Event::KNote(proc_at(spec, words, 1)?)),
        Verb::KernelStore => Some(Event::KStore(word_below(20, words, 1)?)),
        Verb::Release => Some(Event::Release),
    }
}

// Returns the processor that word `at` names, or `None` if it names none.
fn proc_at(spec: &Spec, words: &Words<'_>, at: usize) -> Option<ProcId>
    ensures proc { result ≡ proc_named spec.now (word_at words.now at) }
    ensures below { IfSome result (λ p. p.0 < length spec.now.procs) }
{
    spec.proc_named(words.word_at(at))
}

// Returns the number that word `at` spells, or `None` if it spells no number below the limit.
fn word_below(limit: u32, words: &Words<'_>, at: usize) -> Option<u8>
    requires { limit ≤ 256 }
    ensures value { result ≡ spelled_number limit (word_at words.now at) }
    ensures below { IfSome result (λ i. i < limit) }
{
    match read_number(words.word_at(at), u64::from(limit)) {
        Some(number) => Some(number as u8),
        None => None,
    }
}

// Returns the number of words of an image.
fn image_words(spec: &Spec) -> u32
    ensures words { result ≡ 8 * length spec.now.apps }
    ensures few { result ≤ 64 }
{
    let _apps = spec.apps.items();
    words(spec)
}
