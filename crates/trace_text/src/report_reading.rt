//! Reading the line of a reconfiguration, and the end line.

ghost use Rattle.std.specs.Prelude.{◌≡◌, ◌<◌};
ghost use Rattle.trace_text.specs.ReportReading.{bound_or_none, end_in, end_read, finished_report, is_end_form, is_report_form, report_end, report_in, report_read, same_bound, unfinished_report};

use crate::numbers::read_number;
use crate::pieces::is_dash;
use crate::rule;
use crate::words::Words;
use scram_types::limits::MAX_FRAMES;
use scram_types::{ConfId, Report, Spec};

// Counts are below this limit, so that they fit in 32 bits.
const COUNT_LIMIT: u64 = 4_294_967_296;

/// Reads the line of a reconfiguration of a flight with `frames` frames. Returns the reconfiguration, or the first
/// rule that the line breaks.
pub fn read_report(spec: &Spec, frames: u32, line: &[u8]) -> Result<Report, u8>
    ensures { result ≡ report_read spec.now frames line.now }
{
    match Words::of(line) {
        Some(words) => read_report_words(spec, frames, &words),
        None => Err(rule::NO_FORM),
    }
}

fn read_report_words(spec: &Spec, frames: u32, words: &Words<'_>) -> Result<Report, u8>
    ensures { result ≡ report_in spec.now frames words.now }
{
    if !is_report(words) {
        return Err(rule::NO_FORM);
    }
    match (words.is(3, b"-"), words.is(7, b"-")) {
        (true, true) => read_unfinished(spec, frames, words),
        (false, false) => read_finished(spec, words),
        (true, false) => Err(rule::NO_FORM),
        (false, true) => Err(rule::NO_FORM),
    }
}

fn is_report(words: &Words<'_>) -> bool
    ensures { result ≡ is_report_form words.now }
{
    words.len() == 12
        && words.is(2, b">")
        && words.is(4, b"begin")
        && words.is(6, b"end")
        && words.is(8, b"took")
        && words.is(10, b"of")
}

fn read_finished(spec: &Spec, words: &Words<'_>) -> Result<Report, u8>
    ensures { result ≡ finished_report spec.now words.now }
{
    let Some(from) = spec.conf_named(words.word_at(1)) else {
        return Err(rule::UNKNOWN_NAME);
    };
    let Some(to) = spec.conf_named(words.word_at(3)) else {
        return Err(rule::UNKNOWN_NAME);
    };
    let Some(end) = read_number(words.word_at(7), u64::from(MAX_FRAMES)) else {
        return Err(rule::WRONG_NUMBER);
    };
    read_report_end(words, from, Some(to), end as u32, spec.bound(from, to))
}

fn read_unfinished(spec: &Spec, frames: u32, words: &Words<'_>) -> Result<Report, u8>
    ensures { result ≡ unfinished_report spec.now frames words.now }
{
    let Some(from) = spec.conf_named(words.word_at(1)) else {
        return Err(rule::UNKNOWN_NAME);
    };
    read_report_end(words, from, None, frames, spec.greatest_bound(from))
}

fn read_report_end(
    words: &Words<'_>,
    from: ConfId,
    to: Option<ConfId>,
    end: u32,
    given: Option<u32>,
) -> Result<Report, u8>
    ensures { result ≡ report_end words.now from to end given }
{
    let Some(begin) = read_number(words.word_at(5), u64::from(MAX_FRAMES)) else {
        return Err(rule::WRONG_NUMBER);
    };
    let Some(took) = read_number(words.word_at(9), COUNT_LIMIT) else {
        return Err(rule::WRONG_NUMBER);
    };
    let Some(bound) = read_bound(words.word_at(11)) else {
        return Err(rule::WRONG_NUMBER);
    };
    let begin = begin as u32;
    if begin <= end && took as u32 == end - begin && is_same_bound(bound, given) {
        Ok(Report {
            from,
            to,
            begin,
            end,
        })
    } else {
        Err(rule::WRONG_COUNT)
    }
}

// Returns the bound that a text spells, `Some(None)` for `-`, or `None` if it spells no bound.
fn read_bound(text: &[u8]) -> Option<Option<u32>>
    ensures { result ≡ bound_or_none text.now }
{
    if is_dash(text) {
        return Some(None);
    }
    match read_number(text, COUNT_LIMIT) {
        Some(frames) => Some(Some(frames as u32)),
        None => None,
    }
}

fn is_same_bound(one: Option<u32>, other: Option<u32>) -> bool
    ensures { result ≡ same_bound one other }
{
    match (one, other) {
        (None, None) => true,
        (None, Some(_)) => false,
        (Some(_), None) => false,
        (Some(a), Some(b)) => a == b,
    }
}

/// Reads the end line of a trace with these numbers of frames and reports. The error is the first rule that the line
/// breaks.
pub fn read_end(frames: usize, reports: usize, line: &[u8]) -> Result<(), u8>
    ensures { result ≡ end_read frames reports line.now }
{
    match Words::of(line) {
        Some(words) => read_end_words(frames, reports, &words),
        None => Err(rule::NO_FORM),
    }
}

fn read_end_words(frames: usize, reports: usize, words: &Words<'_>) -> Result<(), u8>
    ensures { result ≡ end_in frames reports words.now }
{
    if !is_end(words) {
        return Err(rule::NO_FORM);
    }
    let Some(counted) = read_number(words.word_at(2), COUNT_LIMIT) else {
        return Err(rule::WRONG_NUMBER);
    };
    let Some(told) = read_number(words.word_at(4), COUNT_LIMIT) else {
        return Err(rule::WRONG_NUMBER);
    };
    if counted == frames as u64 && told == reports as u64 {
        Ok(())
    } else {
        Err(rule::WRONG_COUNT)
    }
}

fn is_end(words: &Words<'_>) -> bool
    ensures { result ≡ is_end_form words.now }
{
    words.len() == 5 && words.is(1, b"frames") && words.is(3, b"reconfigurations")
}
