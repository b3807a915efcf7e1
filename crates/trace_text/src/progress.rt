//! The state of reading a trace: the rows and reports of the lines that have been read, and the lines that may come
//! next.

ghost use Rattle.std.specs.Prelude.{◌≡◌, ◌≤◌, ◌<◌, Ok, length};
ghost use Rattle.std.specs.List.{list_all};
ghost use Rattle.trace_text.specs.ReportReading.{report_read};
ghost use Rattle.trace_text.specs.TraceReading.{AnswersLine, after_app, after_line, before_first, begins, closing, is_plain, is_printable, expected_line, with_app, with_report};
ghost use Rattle.trace_text.specs.declared.progress.Expected.TheVariants.{Apps, Rows};
ghost use Rattle.scram_types.specs.declared.limits.TheConstants.{MAX_FRAMES};

use crate::app_reading::{Done, read_app};
use crate::report_reading::{read_end, read_report};
use crate::row_reading::read_row;
use crate::rule;
use crate::words::first_word;
use scram_types::limits::MAX_LINE_BYTES;
use scram_types::{Report, Row, Spec};
use std::alloc::Global;

/// The lines that may come next.
#[derive(Clone, Copy)]
pub enum Expected {
    /// The first line of a row, the line of a reconfiguration, or the end line.
    Rows,
    /// The line of the application of this number, in a row that has been read up to this line.
    Apps(u8, Row),
    /// The line of a reconfiguration, or the end line.
    Reports,
    /// No line, since the end line has been read.
    Over,
}

/// The reason why a line was not accepted.
#[derive(Clone, Copy)]
pub enum Stop {
    /// The first rule that the line breaks.
    Rule(u8),
    /// There is no memory for a further row or report.
    NoMemory,
}

/// The rows and reports of the lines that have been read, and the lines that may come next.
#[derive(Drop)]
pub struct Progress {
    pub rows: Vec<Row>,
    pub reports: Vec<Report>,
    pub expected: Expected,
}

impl std::marker::Model for Progress {
    ghost use Rattle.std.specs.Prelude.{◌≤◌, length};
    ghost use Rattle.trace_text.specs.TraceReading.{ReadingState, rows_before};

    ghost Value = { ReadingState };

    ghost view = { λ p. record { rows = p.rows.items; reports = p.reports.items; expected = p.expected } };

    ghost invariant = { λ p. length p.rows.items ≤ rows_before p.expected };
}

impl Progress {
    /// Creates the state before the first line.
    pub fn new(alloc: Global) -> Progress
        ensures { result ≡ before_first }
    {
        Progress {
            rows: Vec::new(alloc),
            reports: Vec::new(alloc),
            expected: Expected::Rows,
        }
    }

    /// Reads a further line, given without its line feed, and returns the state after the line.
    ///
    /// # Errors
    ///
    /// Returns the first rule that the line breaks, or `NoMemory` if there is no memory for a further row or report.
    pub fn read_line(self, spec: &Spec, line: &[u8]) -> Result<Progress, Stop>
        ensures { AnswersLine (after_line spec.now self line.now) result }
    {
        if !is_printable_line(line) {
            return Err(Stop::Rule(rule::BROKEN_LINE));
        }
        match self.expected {
            Expected::Rows => self.read_open(spec, line),
            Expected::Apps(a, row) => self.read_app_line(spec, a, row, line),
            Expected::Reports => self.read_closing(spec, line),
            Expected::Over => Err(Stop::Rule(rule::WRONG_END)),
        }
    }

    // Reads a line in a state in which a row may begin.
    fn read_open(self, spec: &Spec, line: &[u8]) -> Result<Progress, Stop>
        requires { self.expected ≡ Rows }
        ensures { AnswersLine (expected_line spec.now self Rows line.now) result }
    {
        if !is_begun(line, b"frame") {
            return self.read_closing(spec, line);
        }
        match read_row(spec, self.rows.len(), line) {
            Ok(row) => Ok(Progress {
                rows: self.rows,
                reports: self.reports,
                expected: Expected::Apps(0, row),
            }),
            Err(rule) => Err(Stop::Rule(rule)),
        }
    }

    // Reads a line that has to be the line of application `a`.
    fn read_app_line(self, spec: &Spec, a: u8, row: Row, line: &[u8]) -> Result<Progress, Stop>
        requires { length self.rows < MAX_FRAMES }
        ensures { AnswersLine (expected_line spec.now self (Apps a row) line.now) result }
    {
        if !is_begun(line, b"app") {
            return Err(Stop::Rule(rule::OUT_OF_PLACE));
        }
        match read_app(spec, a, line) {
            Ok(done) => self.take_done(spec, a, row, &done),
            Err(rule) => Err(Stop::Rule(rule)),
        }
    }

    // Adds the act and the area of application `a` to the row. The row is complete after its last application.
    fn take_done(mut self, spec: &Spec, a: u8, row: Row, done: &Done) -> Result<Progress, Stop>
        requires rows { length self.rows < MAX_FRAMES }
        requires app { a < length spec.now.apps }
        ensures { AnswersLine (Ok (after_app spec.now self a (with_app row a done.now.act done.now.area))) result }
    {
        let count = spec.apps.items().len();
        let row = row_with(row, a, done);
        if usize::from(a) + 1 < count {
            self.expected = Expected::Apps(a + 1, row);
            return Ok(self);
        }
        match self.rows.push(row) {
            Ok(()) => {}
            Err(_) => return Err(Stop::NoMemory),
        }
        self.expected = Expected::Rows;
        Ok(self)
    }

    // Reads a line that has to be the line of a reconfiguration or the end line.
    fn read_closing(self, spec: &Spec, line: &[u8]) -> Result<Progress, Stop>
        requires { length self.rows ≤ MAX_FRAMES }
        ensures { AnswersLine (closing spec.now self line.now) result }
    {
        if is_begun(line, b"reconfiguration") {
            return self.read_report_line(spec, line);
        }
        if !is_begun(line, b"end") {
            return Err(Stop::Rule(rule::OUT_OF_PLACE));
        }
        match read_end(self.rows.len(), self.reports.len(), line) {
            Ok(()) => Ok(Progress {
                rows: self.rows,
                reports: self.reports,
                expected: Expected::Over,
            }),
            Err(rule) => Err(Stop::Rule(rule)),
        }
    }

    fn read_report_line(mut self, spec: &Spec, line: &[u8]) -> Result<Progress, Stop>
        requires { length self.rows ≤ MAX_FRAMES }
        ensures { AnswersLine (with_report self (report_read spec.now (length self.rows) line.now)) result }
    {
        match read_report(spec, self.rows.len() as u32, line) {
            Ok(report) => match self.reports.push(report) {
                Ok(()) => {}
                Err(_) => return Err(Stop::NoMemory),
            },
            Err(rule) => return Err(Stop::Rule(rule)),
        }
        self.expected = Expected::Reports;
        Ok(self)
    }
}

// Returns the row `row` with the act and the area of application `a`.
fn row_with(row: Row, a: u8, done: &Done) -> Row
    requires { a < 8 }
    ensures { result ≡ with_app row a done.now.act done.now.area }
{
    let mut row = row;
    row.acts[usize::from(a)] = done.act;
    row.areas[usize::from(a)] = done.area;
    row
}

fn is_begun(line: &[u8], text: &[u8]) -> bool
    ensures { result ≡ begins line.now text.now }
{
    first_word(line) == text
}

fn is_printable_line(line: &[u8]) -> bool
    ensures { result ≡ is_plain line.now }
{
    line.len() <= MAX_LINE_BYTES && is_printable_text(line)
}

/// Returns `true` if each byte of a text is printable in ASCII. The space counts as printable.
pub fn is_printable_text(text: &[u8]) -> bool
    ensures { result ≡ list_all is_printable text.now }
{
    text.iter().all(|&byte| is_printable_byte(byte))
}

fn is_printable_byte(byte: u8) -> bool
    ensures { result ≡ is_printable byte }
{
    32 <= byte && byte <= 126
}
