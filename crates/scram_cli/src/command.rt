//! The function that runs the command.

ghost use Rattle.std.specs.Prelude.{◌≡◌, ◌∷◌, [], Some, map, string_bytes};
ghost use Rattle.scram_io.specs.Outside.{Rose};
ghost use Rattle.form_base.specs.Answers.{Gives};
ghost use Rattle.form_base.specs.Assurance.{Assured};
ghost use Rattle.form_base.specs.Endings.{Completes, Ends, IsSent, IsTaken, PrintsAnswer, WentOut};
ghost use Rattle.form_base.specs.Refusals.{answer_of};
ghost use Rattle.form_base.specs.declared.status.TheConstants.{ANSWERED, BROKEN_USAGE, UNREAD_FILE, UNWRITTEN_OUTPUT};
ghost use Rattle.scram_cli.specs.Answers.{FlightFormAnswers, FormAnswers, LookAnswers, QuestionAnswers, usage_line};
ghost use Rattle.scram_cli.specs.Assurance.{AssuresForm};
ghost use Rattle.scram_cli.specs.Forms.{files_of, flight_files, flight_with_names, form_of, question_files, question_with_names, with_names};
ghost use Rattle.scram_cli.specs.Pages.{page_text};

use crate::forms::{FlightForm, Form, Look, SpecificationForm, form_of};
use crate::pages::{Page, page_text};
use app_model::Boxes;
use explain_form::{explain, explain_script};
use faults_form::{FaultsQuestion, faults};
use fill_form::fill;
use flight_forms::laws::flights_are_assured;
use flight_forms::{
    PairFiles, ReplayFiles, fly_generated, pair_form, print_generated, replay_form, run, watch,
};
use flights_form::{ScriptsFiles, flights};
use form_base::mission_files::MissionFiles;
use form_base::printing::{print_refusal, print_text};
use form_base::refusals::{Refusal, Refused};
use form_base::status::{ANSWERED, Status, UNWRITTEN_OUTPUT};
use form_base::trace_files::TraceFiles;
use picture_form::picture_form;
use scram_io::{Files, Sink, SinkFault};
use spec_forms::choice_forms::{Question, choices, choose};
use spec_forms::{bounds, check};
use std::alloc::{AllocGlobal, Global};
use std::sync::Wait;
use std::thread::Threads;
use trace_forms::columns_form::columns_form;
use trace_forms::props_form;
use trace_forms::summary_form::summary_form;
use trace_props::missions::reconfigurations_are_assured;
use trace_text::lines::Line;

/// Answers `words`, which are the words after the program's name, by their form. Words that have none of the
/// following forms are refused.
///
/// - `run SPEC SCRIPT` flies a mission.
/// - `watch SPEC SCRIPT` flies a mission while two readers read the summary of the flight.
/// - `pair SPEC SCRIPT UNIT FRAME STEP` flies a mission with the kernel on two units, of which unit `UNIT` may halt in
///   frame `FRAME` after `STEP` of its steps.
/// - `replay SPEC SCRIPT SCHEDULE` flies a mission by a schedule.
/// - `check SPEC` prints whether a specification is accepted.
/// - `explain SPEC` and `explain SPEC SCRIPT` print why a specification or a script is refused, or the idle parts of
///   the specification.
/// - `bounds SPEC` prints each bound that a specification must give.
/// - `fill SPEC` prints a specification with bounds and a window that suffice.
/// - `choices SPEC` prints what each rule chooses.
/// - `choose SPEC CONF STATE..` prints the configuration that is chosen from `CONF` in a state.
/// - `props SPEC TRACE` judges a trace by a specification, which need not be accepted.
/// - `summary SPEC TRACE`, `columns SPEC TRACE` and `picture SPEC TRACE` print a summary, a table and a picture of a
///   trace.
/// - `faults SPEC COUNT` prints each script with `COUNT` faults that keeps to the failure assumption.
/// - `flights SPEC SCRIPTS` flies the script on each line of a file.
/// - `gen N` prints the mission generated from a number, and `fly N` flies it.
/// - `--help` and `--version` describe the program.
///
/// When the call returns, all printed text has been written, or the status is 4, `UNWRITTEN_OUTPUT`.
///
/// `run`, `watch` and `fly` fly a mission with a thread for each processor. `replay`, `pair` and `flights` fly
/// without threads.
pub fn scram<R: AllocGlobal + Threads + Wait + Sync, F: Files, K: Sink>(
    rt: &R,
    words: &[String],
    files: &mut F,
    out: &mut K,
    boxes: Boxes,
) -> Status
    ensures answer { Ends (FormAnswers (form_of (map string_bytes words.now))) (files_of (form_of (map string_bytes words.now)))
        (F.state files.old) (F.state files.new) (IsSent (K.state out.old) (K.state out.new) result.code) }
    ensures read { result.code ≡ UNREAD_FILE → Rose (F.state files.old).faults (F.state files.new).faults }
    ensures write { result.code ≡ UNWRITTEN_OUTPUT → Rose (K.state out.old).faults (K.state out.new).faults }
    ensures complete { Completes (FormAnswers (form_of (map string_bytes words.now))) (files_of (form_of (map string_bytes words.now)))
        (F.state files.old) (F.state files.new) (K.state out.old) (K.state out.new) }
    ensures assured { result.code ≡ ANSWERED → Assured (AssuresForm (form_of (map string_bytes words.now)))
        (F.state files.old) (F.state files.new) (WentOut (K.state out.old) (K.state out.new)) }
{
    flights_are_assured();
    reconfigurations_are_assured();
    send_answer(rt, words, files, out, boxes)
}

// Answers the words, and flushes the sink.
fn send_answer<R: AllocGlobal + Threads + Wait + Sync, F: Files, K: Sink>(
    rt: &R,
    words: &[String],
    files: &mut F,
    out: &mut K,
    boxes: Boxes,
) -> Status
    ensures { Ends (FormAnswers (form_of (map string_bytes words.now))) (files_of (form_of (map string_bytes words.now)))
        (F.state files.old) (F.state files.new) (IsSent (K.state out.old) (K.state out.new) result.code) }
{
    let status = answer_words(rt, words, files, out, boxes);
    match out.flush() {
        Ok(()) => status,
        Err(SinkFault) => Status {
            code: UNWRITTEN_OUTPUT,
        },
    }
}

// Answers the words without flushing the sink, which may hold back printed text afterwards.
fn answer_words<R: AllocGlobal + Threads + Wait + Sync, F: Files, K: Sink>(
    rt: &R,
    words: &[String],
    files: &mut F,
    out: &mut K,
    boxes: Boxes,
) -> Status
    ensures { Ends (FormAnswers (form_of (map string_bytes words.now))) (files_of (form_of (map string_bytes words.now)))
        (F.state files.old) (F.state files.new) (IsTaken (K.state out.old) (K.state out.new) result.code) }
{
    match form_of(words) {
        Some(form) => answer_form(rt, form, files, out, boxes),
        None => {
            drop(boxes);
            refuse_usage(out)
        }
    }
}

fn refuse_usage<K: Sink>(out: &mut K) -> Status
    ensures { PrintsAnswer (Gives (BROKEN_USAGE, usage_line)) (K.state out.old) (K.state out.new) result.code }
{
    print_refusal(out, &usage())
}

// Returns the refusal of words that have no form.
fn usage() -> Refusal
    ensures { answer_of result ≡ (BROKEN_USAGE, usage_line) }
{
    let mut line = Line::new();
    line.text(b"refused: usage\n");
    Refusal::new(Refused::Usage, line)
}

// Prints a page about the command.
fn print_page<K: Sink>(out: &mut K, page: Page) -> Status
    ensures { PrintsAnswer (Gives (ANSWERED, page_text page)) (K.state out.old) (K.state out.new) result.code }
{
    print_text(out, ANSWERED, page_text(page).as_bytes())
}

// Answers a form.
fn answer_form<R: AllocGlobal + Threads + Wait + Sync, F: Files, K: Sink>(
    rt: &R,
    form: Form<&str>,
    files: &mut F,
    out: &mut K,
    boxes: Boxes,
) -> Status
    ensures { Ends (FormAnswers (Some (with_names (λ name. name.now) form.entry))) (files_of (Some (with_names (λ name. name.now) form.entry)))
        (F.state files.old) (F.state files.new) (IsTaken (K.state out.old) (K.state out.new) result.code) }
{
    match form {
        Form::Flight { flight } => answer_flight(rt, flight, files, out, boxes),
        Form::Specification { question } => {
            drop(boxes);
            answer_question(rt.alloc(), question, files, out)
        }
        Form::Trace {
            look,
            specification,
            trace,
        } => {
            drop(boxes);
            let named = TraceFiles {
                specification,
                trace,
            };
            look_at(rt.alloc(), look, named, files, out)
        }
        Form::Told { page } => {
            drop(boxes);
            print_page(out, page)
        }
    }
}

// Answers a form about flights.
fn answer_flight<R: AllocGlobal + Threads + Wait + Sync, F: Files, K: Sink>(
    rt: &R,
    flight: FlightForm<&str>,
    files: &mut F,
    out: &mut K,
    boxes: Boxes,
) -> Status
    ensures { Ends (FlightFormAnswers (flight_with_names (λ name. name.now) flight.entry)) (flight_files (flight_with_names (λ name. name.now) flight.entry))
        (F.state files.old) (F.state files.new) (IsTaken (K.state out.old) (K.state out.new) result.code) }
{
    match flight {
        FlightForm::Run {
            specification,
            script,
        } => {
            let named = MissionFiles {
                specification,
                script,
            };
            run(rt, named, files, out, boxes)
        }
        FlightForm::Watch {
            specification,
            script,
        } => {
            let named = MissionFiles {
                specification,
                script,
            };
            watch(rt, named, files, out, boxes)
        }
        FlightForm::Pair {
            specification,
            script,
            halt,
        } => {
            let named = PairFiles {
                specification,
                script,
                halt,
            };
            pair_form(rt.alloc(), named, files, out, boxes)
        }
        FlightForm::Replay {
            specification,
            script,
            schedule,
        } => {
            let named = ReplayFiles {
                specification,
                script,
                schedule,
            };
            replay_form(rt.alloc(), named, files, out, boxes)
        }
        FlightForm::Faults {
            specification,
            count,
        } => {
            drop(boxes);
            let question = FaultsQuestion {
                specification,
                count,
            };
            faults(rt.alloc(), question, files, out)
        }
        FlightForm::Flights {
            specification,
            scripts,
        } => {
            drop(boxes);
            let named = ScriptsFiles {
                specification,
                scripts,
            };
            flights(rt.alloc(), named, files, out)
        }
        FlightForm::Gen { number } => {
            drop(boxes);
            print_generated(rt.alloc(), number, out)
        }
        FlightForm::Fly { number } => fly_generated(rt, number, out, boxes),
    }
}

// Answers a question about a specification.
fn answer_question<F: Files, K: Sink>(
    alloc: Global,
    question: SpecificationForm<&str>,
    files: &mut F,
    out: &mut K,
) -> Status
    ensures { Ends (QuestionAnswers (question_with_names (λ name. name.now) question.entry))
        (question_files (question_with_names (λ name. name.now) question.entry))
        (F.state files.old) (F.state files.new) (IsTaken (K.state out.old) (K.state out.new) result.code) }
{
    match question {
        SpecificationForm::Check { specification } => check(alloc, specification, files, out),
        SpecificationForm::Bounds { specification } => bounds(alloc, specification, files, out),
        SpecificationForm::Explain { specification } => explain(alloc, specification, files, out),
        SpecificationForm::ExplainScript {
            specification,
            script,
        } => {
            let named = MissionFiles {
                specification,
                script,
            };
            explain_script(alloc, named, files, out)
        }
        SpecificationForm::Fill { specification } => fill(alloc, specification, files, out),
        SpecificationForm::Choices { specification } => choices(alloc, specification, files, out),
        SpecificationForm::Choose {
            specification,
            conf,
            state,
        } => {
            let question = Question {
                specification,
                conf,
                state: state.words(),
            };
            choose(alloc, question, files, out)
        }
    }
}

// Answers a look at the trace in a file, by the specification in another file.
fn look_at<F: Files, K: Sink>(
    alloc: Global,
    look: Look,
    named: TraceFiles<'_>,
    files: &mut F,
    out: &mut K,
) -> Status
    ensures { Ends (LookAnswers look named.entry.specification.now named.entry.trace.now) (named.entry.specification.now ∷ named.entry.trace.now ∷ [])
        (F.state files.old) (F.state files.new) (IsTaken (K.state out.old) (K.state out.new) result.code) }
{
    match look {
        Look::Props => props_form(alloc, named, files, out),
        Look::Summary => summary_form(alloc, named, files, out),
        Look::Columns => columns_form(alloc, named, files, out),
        Look::Picture => picture_form(alloc, named, files, out),
    }
}
