//! The forms of the command.

ghost use Rattle.std.specs.Prelude.{◌≡◌, map, string_bytes, option_map};
ghost use Rattle.scram_cli.specs.Forms.{choose_form, flight_of_three, flight_with_names, form_of, form_of_few, form_of_explained, form_of_four, form_of_look, form_of_number, form_of_one, form_of_six, form_of_three, form_of_two, look_of, mission_number, question_of, question_with_names, unit_halt, with_names};

use crate::pages::Page;
use faults_form::{FaultCount, fault_count};
use kernel_pair::UnitHalt;
use spec_forms::choice_forms::states::{State, read_state};
use trace_text::numbers::read_number;

/// The exclusive upper limit of a mission's number.
const MISSIONS: u64 = 1_000_000;

/// The exclusive upper limit of a unit's number.
const UNITS: u64 = 2;

const HALT_FRAMES: u64 = 20_000;

const HALT_STEPS: u64 = 32;

/// A form of the command's words. `N` is the type of the names of files and configurations in the form.
#[derive(Drop)]
pub enum Form<N> {
    /// A form about flights.
    Flight {
        flight: FlightForm<N>,
    },
    /// A question about a specification.
    Specification {
        question: SpecificationForm<N>,
    },
    /// A look at the trace in a file, by the specification in another file.
    Trace {
        look: Look,
        specification: N,
        trace: N,
    },
    /// A page about the command.
    Told {
        page: Page,
    },
}

/// A form about flights.
#[derive(Drop)]
pub enum FlightForm<N> {
    /// Flies the mission of a specification and a script, and prints the trace of the flight.
    Run {
        specification: N,
        script: N,
    },
    /// Flies the mission of a specification and a script while two readers read the summary of the flight. Prints the
    /// last summary in one line.
    Watch {
        specification: N,
        script: N,
    },
    /// Flies the mission of a specification and a script with the kernel on two units, one of which may halt. Prints
    /// the trace of the flight.
    Pair {
        specification: N,
        script: N,
        halt: UnitHalt,
    },
    /// Flies the mission of a specification and a script by a schedule, and prints the trace of the flight.
    Replay {
        specification: N,
        script: N,
        schedule: N,
    },
    /// Prints each script with `count` faults, 1 to 3, that keeps to a specification's failure assumption.
    Faults {
        specification: N,
        count: FaultCount,
    },
    /// Flies the script on each line of a file. Prints a line for each script, and a line for the totals.
    Flights {
        specification: N,
        scripts: N,
    },
    /// Prints the mission generated from a number, 0 to 999,999.
    Gen {
        number: u32,
    },
    /// Flies the mission generated from a number, 0 to 999,999, and prints its summary.
    Fly {
        number: u32,
    },
}

/// A question about a specification.
#[derive(Drop)]
pub enum SpecificationForm<N> {
    /// Prints whether the specification is accepted.
    Check {
        specification: N,
    },
    /// Prints each bound that the specification must give, with the smallest value that suffices and the given value.
    Bounds {
        specification: N,
    },
    /// Prints why the specification is refused. If it is accepted, prints its idle parts.
    Explain {
        specification: N,
    },
    /// Prints why the specification or a script for it is refused. If the two form a mission, prints the idle parts
    /// of the specification.
    ExplainScript {
        specification: N,
        script: N,
    },
    /// Prints the specification with bounds and a window that suffice.
    Fill {
        specification: N,
    },
    /// Prints the configuration that each rule chooses, the configurations from which the rule chooses it, and the
    /// number of environments in which the rule chooses it.
    Choices {
        specification: N,
    },
    /// Prints the configuration that is chosen from `conf` in a state of the environment.
    Choose {
        specification: N,
        conf: N,
        state: State,
    },
}

/// A look at a trace.
#[derive(Clone, Copy)]
pub enum Look {
    /// A judgement by the properties of reconfigurations.
    Props,
    /// A summary of the flight.
    Summary,
    /// The trace as a table of comma-separated values.
    Columns,
    /// The trace as a picture, in SVG.
    Picture,
}

/// Returns the form of the words after the program's name, or `None` if they have no form.
pub fn form_of(words: &[String]) -> Option<Form<&str>>
    ensures { option_map (with_names (λ name. name.now)) result ≡ form_of (map string_bytes words.now) }
{
    match words {
        [command, specification, conf, state @ ..] => {
            if command.as_str() == "choose" {
                choose_form(specification.as_str(), conf.as_str(), state)
            } else {
                form_of_few(words)
            }
        }
        _ => form_of_few(words),
    }
}

fn choose_form<'a>(specification: &'a str, conf: &'a str, state: &[String]) -> Option<Form<&'a str>>
    ensures { option_map (with_names (λ name. name.now)) result ≡ choose_form specification.now conf.now (map string_bytes state.now) }
{
    match read_state(state) {
        Some(state) => Some(Form::Specification {
            question: SpecificationForm::Choose {
                specification,
                conf,
                state,
            },
        }),
        None => None,
    }
}

// Returns the form of the words, or `None` if they have no form other than `choose`. Such a form has at most six
// words.
fn form_of_few(words: &[String]) -> Option<Form<&str>>
    ensures { option_map (with_names (λ name. name.now)) result ≡ form_of_few (map string_bytes words.now) }
{
    match words {
        [command] => form_of_one(command.as_str()),
        [command, word] => form_of_two(command.as_str(), word.as_str()),
        [command, specification, further] => form_of_three(
            command.as_str(),
            specification.as_str(),
            further.as_str(),
        ),
        [command, specification, script, schedule] => form_of_four(
            command.as_str(),
            specification.as_str(),
            script.as_str(),
            schedule.as_str(),
        ),
        [command, specification, script, unit, frame, step] => form_of_six(
            command.as_str(),
            (specification.as_str(), script.as_str()),
            (unit.as_str(), frame.as_str(), step.as_str()),
        ),
        _ => None,
    }
}

fn form_of_one<'a>(command: &str) -> Option<Form<&'a str>>
    ensures { option_map (with_names (λ name. name.now)) result ≡ form_of_one command.now }
{
    match command {
        "--help" => Some(Form::Told { page: Page::Help }),
        "--version" => Some(Form::Told {
            page: Page::Version,
        }),
        _ => None,
    }
}

fn form_of_two<'a>(command: &str, word: &'a str) -> Option<Form<&'a str>>
    ensures { option_map (with_names (λ name. name.now)) result ≡ form_of_two command.now word.now }
{
    match question_of(command, word) {
        Some(question) => Some(Form::Specification { question }),
        None => form_of_number(command, word),
    }
}

// Returns the question that `command` asks about the specification in a file, or `None` if there is no such question.
fn question_of<'a>(command: &str, specification: &'a str) -> Option<SpecificationForm<&'a str>>
    ensures { option_map (question_with_names (λ name. name.now)) result ≡ question_of command.now specification.now }
{
    match command {
        "check" => Some(SpecificationForm::Check { specification }),
        "bounds" => Some(SpecificationForm::Bounds { specification }),
        "explain" => Some(SpecificationForm::Explain { specification }),
        "fill" => Some(SpecificationForm::Fill { specification }),
        "choices" => Some(SpecificationForm::Choices { specification }),
        _ => None,
    }
}

fn form_of_number<'a>(command: &str, word: &str) -> Option<Form<&'a str>>
    ensures { option_map (with_names (λ name. name.now)) result ≡ form_of_number command.now word.now }
{
    let flight = match command {
        "gen" => FlightForm::Gen {
            number: mission_number(word)?,
        },
        "fly" => FlightForm::Fly {
            number: mission_number(word)?,
        },
        _ => return None,
    };
    Some(Form::Flight { flight })
}

fn mission_number(word: &str) -> Option<u32>
    ensures { result ≡ mission_number word.now }
{
    let number = read_number(word.as_bytes(), MISSIONS)?;
    Some(number as u32)
}

fn form_of_three<'a>(
    command: &str,
    specification: &'a str,
    further: &'a str,
) -> Option<Form<&'a str>>
    ensures { option_map (with_names (λ name. name.now)) result ≡ form_of_three command.now specification.now further.now }
{
    match flight_of_three(command, specification, further) {
        Some(flight) => Some(Form::Flight { flight }),
        None => form_of_explained(command, specification, further),
    }
}

fn form_of_explained<'a>(
    command: &str,
    specification: &'a str,
    further: &'a str,
) -> Option<Form<&'a str>>
    ensures { option_map (with_names (λ name. name.now)) result ≡ form_of_explained command.now specification.now further.now }
{
    match command {
        "explain" => Some(Form::Specification {
            question: SpecificationForm::ExplainScript {
                specification,
                script: further,
            },
        }),
        _ => form_of_look(command, specification, further),
    }
}

// Returns the form about flights that consists of a command, the name of a specification's file and a further word,
// or `None` if there is no such form.
fn flight_of_three<'a>(
    command: &str,
    specification: &'a str,
    further: &'a str,
) -> Option<FlightForm<&'a str>>
    ensures { option_map (flight_with_names (λ name. name.now)) result ≡ flight_of_three command.now specification.now further.now }
{
    match command {
        "run" => Some(FlightForm::Run {
            specification,
            script: further,
        }),
        "watch" => Some(FlightForm::Watch {
            specification,
            script: further,
        }),
        "faults" => Some(FlightForm::Faults {
            specification,
            count: fault_count(further.as_bytes())?,
        }),
        "flights" => Some(FlightForm::Flights {
            specification,
            scripts: further,
        }),
        _ => None,
    }
}

fn form_of_look<'a>(command: &str, specification: &'a str, trace: &'a str) -> Option<Form<&'a str>>
    ensures { option_map (with_names (λ name. name.now)) result ≡ form_of_look command.now specification.now trace.now }
{
    let look = look_of(command)?;
    Some(Form::Trace {
        look,
        specification,
        trace,
    })
}

fn look_of(command: &str) -> Option<Look>
    ensures { result ≡ look_of command.now }
{
    match command {
        "props" => Some(Look::Props),
        "summary" => Some(Look::Summary),
        "columns" => Some(Look::Columns),
        "picture" => Some(Look::Picture),
        _ => None,
    }
}

fn form_of_four<'a>(
    command: &str,
    specification: &'a str,
    script: &'a str,
    schedule: &'a str,
) -> Option<Form<&'a str>>
    ensures { option_map (with_names (λ name. name.now)) result ≡ form_of_four command.now specification.now script.now schedule.now }
{
    match command {
        "replay" => Some(Form::Flight {
            flight: FlightForm::Replay {
                specification,
                script,
                schedule,
            },
        }),
        _ => None,
    }
}

fn form_of_six<'a>(
    command: &str,
    files: (&'a str, &'a str),
    halt: (&str, &str, &str),
) -> Option<Form<&'a str>>
    ensures { option_map (with_names (λ name. name.now)) result
        ≡ form_of_six command.now files.entry.0.now files.entry.1.now halt.entry.0.now halt.entry.1.now halt.entry.2.now }
{
    match command {
        "pair" => Some(Form::Flight {
            flight: FlightForm::Pair {
                specification: files.0,
                script: files.1,
                halt: unit_halt(halt.0, halt.1, halt.2)?,
            },
        }),
        _ => None,
    }
}

fn unit_halt(unit: &str, frame: &str, step: &str) -> Option<UnitHalt>
    ensures { result ≡ unit_halt unit.now frame.now step.now }
{
    let unit = read_number(unit.as_bytes(), UNITS)?;
    let frame = read_number(frame.as_bytes(), HALT_FRAMES)?;
    let step = read_number(step.as_bytes(), HALT_STEPS)?;
    Some(UnitHalt {
        unit: unit as u8,
        frame: frame as u32,
        step: step as u8,
    })
}
