//! Refusals, which are the answers to requests that are not carried out. Each refusal has a status and a line.

ghost use Rattle.std.specs.Prelude.{◌≡◌};
ghost use Rattle.form_base.specs.Refusals.{IsUnread, code_of, line_text, memory_line, answer_of};
ghost use Rattle.form_base.specs.declared.status.TheConstants.{OUT_OF_MEMORY};

use crate::status;
use std::alloc::Global;
use trace_text::lines::Line;

/// A kind of refusal.
#[derive(Clone, Copy)]
pub enum Refused {
    /// The command's words match no form of the command.
    Usage,
    /// A file was not read.
    File,
    /// A file breaks a rule of specifications.
    Specification,
    /// A specification is not accepted.
    Acceptance,
    /// A file breaks a rule of scripts.
    Script,
    /// A script violates the failure assumption.
    Assumption,
    /// Memory ran out.
    Memory,
    /// A file breaks a rule of traces.
    Trace,
    /// A file breaks a rule of schedules, or the schedule does not fly to the end.
    Schedule,
    /// A word that must be the name of a part of the specification is not such a name.
    Name,
}

impl Refused {
    /// Returns the status with which the command reports this refusal.
    pub fn code(self) -> u8
        ensures { result ≡ code_of self }
    {
        match self {
            Refused::Usage => status::BROKEN_USAGE,
            Refused::File => status::UNREAD_FILE,
            Refused::Specification => status::BROKEN_SPECIFICATION,
            Refused::Acceptance => status::NOT_ACCEPTED,
            Refused::Script => status::BROKEN_SCRIPT,
            Refused::Assumption => status::UNASSUMED_SCRIPT,
            Refused::Memory => status::OUT_OF_MEMORY,
            Refused::Trace => status::BROKEN_TRACE,
            Refused::Schedule => status::BROKEN_SCHEDULE,
            Refused::Name => status::UNKNOWN_NAME,
        }
    }
}

/// The line of a refusal, with or without allocated memory.
#[derive(Drop)]
pub enum RefusalLine {
    /// A line that is made without allocation.
    Short(Line),
    /// An allocated text, which may have any length. It is a line with one of the command's words, or a line and the
    /// explanation of a broken rule.
    Naming(String),
}

/// A refusal, with its kind and its line.
pub struct Refusal {
    pub refused: Refused,
    pub line: RefusalLine,
}

// A derived drop is laid out in the proof of each function that drops the value, and this one is a call.
impl Drop for Refusal {
    fn drop(self) {
        let Refusal {
            refused: _,
            line: _,
        } = self;
    }
}

impl Refusal {
    /// Returns a refusal of the kind `refused`, with a line that is made without allocation.
    pub fn new(refused: Refused, line: Line) -> Refusal
        ensures { answer_of result ≡ (code_of refused, line) }
    {
        Refusal {
            refused,
            line: RefusalLine::Short(line),
        }
    }

    /// Returns the out-of-memory refusal.
    pub fn out_of_memory() -> Refusal
        ensures { answer_of result ≡ (OUT_OF_MEMORY, memory_line) }
    {
        let mut line = Line::new();
        line.text(b"refused: memory\n");
        Refusal::new(Refused::Memory, line)
    }

    /// Returns the refusal of a file that was not read. The line contains the file's name. If there is no memory for
    /// the line, the refusal is the out-of-memory refusal.
    pub fn unread(alloc: Global, name: &str) -> Refusal
        ensures { IsUnread name.now (answer_of result) }
    {
        match format!(in alloc; "refused: read {name}\n") {
            Ok(line) => Refusal {
                refused: Refused::File,
                line: RefusalLine::Naming(line),
            },
            Err(_) => Refusal::out_of_memory(),
        }
    }

    /// Returns the bytes of the line.
    pub fn line(&self) -> &[u8]
        ensures { result.now ≡ line_text self.now.line }
    {
        match &self.line {
            RefusalLine::Short(line) => line.as_bytes(),
            RefusalLine::Naming(line) => line.as_str().as_bytes(),
        }
    }
}
