//! Acts of applications, reduced to their first word, their mode and their processor.

ghost use Rattle.std.specs.Prelude.{◌≡◌, ◌<◌, ◌≤◌, ◌^◌, length};
ghost use Rattle.flight_facts.specs.Acts.{act_word, count_acts, mode_of_act, proc_of_act, word_number, word_text};

use scram_types::{Act, Mode, ProcId, Row, Spec};

/// The first word of an act in a trace, which names what an application did in a frame.
#[derive(Clone, Copy)]
pub enum ActWord {
    Ran,
    Halting,
    Preparing,
    Initialising,
    Held,
    Off,
    Lost,
}

/// Returns the first word of an act.
pub fn act_word(act: &Act) -> ActWord
    ensures { result ≡ act_word act.now }
{
    match act {
        Act::Ran(_, _) => ActWord::Ran,
        Act::Halting(_, _, _) => ActWord::Halting,
        Act::Held => ActWord::Held,
        Act::Preparing(_, _, _) => ActWord::Preparing,
        Act::Initialising(_, _, _) => ActWord::Initialising,
        Act::Off => ActWord::Off,
        Act::Lost => ActWord::Lost,
    }
}

impl ActWord {
    /// Returns the text of the word, as a trace spells it. The text has at most 12 bytes.
    pub fn text(self) -> &'static str
        ensures text { result.now ≡ word_text self }
        ensures short { length result.now ≤ 12 }
    {
        match self {
            ActWord::Ran => "ran",
            ActWord::Halting => "halting",
            ActWord::Preparing => "preparing",
            ActWord::Initialising => "initialising",
            ActWord::Held => "held",
            ActWord::Off => "off",
            ActWord::Lost => "lost",
        }
    }

    /// Returns the number of the word, 0 to 6. No two words have the same number.
    pub fn number(self) -> u8
        ensures number { result ≡ word_number self }
        ensures below { result < 7 }
    {
        match self {
            ActWord::Ran => 0,
            ActWord::Halting => 1,
            ActWord::Preparing => 2,
            ActWord::Initialising => 3,
            ActWord::Held => 4,
            ActWord::Off => 5,
            ActWord::Lost => 6,
        }
    }
}

/// Returns the mode in which an application ran, or mode 0, which is off, if it did not run.
pub fn mode_of_act(act: &Act) -> Mode
    ensures { result.0 ≡ mode_of_act act.now }
{
    match act {
        Act::Ran(mode, _) => *mode,
        Act::Halting(_, _, _) => Mode(0),
        Act::Held => Mode(0),
        Act::Preparing(_, _, _) => Mode(0),
        Act::Initialising(_, _, _) => Mode(0),
        Act::Off => Mode(0),
        Act::Lost => Mode(0),
    }
}

/// Returns the processor that an act names, or `None` if it names none.
pub fn proc_of_act(act: &Act) -> Option<ProcId>
    ensures { result ≡ proc_of_act act.now }
{
    match act {
        Act::Ran(_, proc) => Some(*proc),
        Act::Halting(_, _, proc) => Some(*proc),
        Act::Held => None,
        Act::Preparing(_, _, proc) => Some(*proc),
        Act::Initialising(_, _, proc) => Some(*proc),
        Act::Off => None,
        Act::Lost => None,
    }
}

/// Returns the number of applications.
pub fn count_apps(spec: &Spec) -> usize
    ensures value { result ≡ length spec.now.apps }
    ensures few { result ≤ 8 }
{
    spec.apps.items().len()
}

/// Returns the number of rows in which the first word of an application's act is `what`.
pub fn count_acts(what: ActWord, app: usize, rows: &[Row]) -> u32
    requires app { app < 8 }
    requires rows { length rows.now < 2 ^ 32 }
    ensures { result ≡ count_acts what app rows.now }
{
    let mut count = 0;
    for row in rows {
        if act_word(&row.acts[app]).number() == what.number() {
            count += 1;
        }
    }
    count
}
