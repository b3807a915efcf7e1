//! The form `props`, which judges a finished trace.

ghost use Rattle.std.specs.Prelude.{◌∷◌, [], ◌<◌, ◌^◌, IfOk, length};
ghost use Rattle.scram_types.specs.declared.rows.Flown.{Flown};
ghost use Rattle.form_base.specs.Answers.{WithoutFiles};
ghost use Rattle.form_base.specs.Endings.{Ends, IsTaken, Prepares};
ghost use Rattle.form_base.specs.declared.status.TheConstants.{ANSWERED, BROKEN_PROPERTY};
ghost use Rattle.form_base.specs.trace_files.Traces.{AsksTrace};
ghost use Rattle.trace_forms.specs.Answers.{IsJudgement, PropsAnswers};
ghost use Rattle.trace_forms.specs.Verdicts.{GivesJudgement, HasVerdict};

use crate::lines::{make_broken_line, make_holds_line};
use form_base::loads::load;
use form_base::printing::{print_refusal, print_text};
use form_base::refusals::Refusal;
use form_base::specifications::Specification;
use form_base::status::{ANSWERED, BROKEN_PROPERTY, Status};
use form_base::trace_files::{Trace, TraceFiles};
use scram_io::{Files, Sink};
use scram_types::{Flown, Spec};
use std::alloc::Global;
use trace_props::props;
use trace_text::lines::Line;

/// The judgement of a trace: a status and a line.
#[derive(Drop)]
struct Judgement {
    code: u8,
    line: Line,
}

/// Prints whether the six properties of reconfigurations hold for the trace in a file. If they do not, prints the
/// first property that the trace breaks, and the frame in which it breaks the property.
pub fn props_form<F: Files, K: Sink>(
    alloc: Global,
    named: TraceFiles<'_>,
    files: &mut F,
    out: &mut K,
) -> Status
    ensures { Ends (PropsAnswers named.entry.specification.now named.entry.trace.now) (named.entry.specification.now ∷ named.entry.trace.now ∷ [])
        (F.state files.old) (F.state files.new) (IsTaken (K.state out.old) (K.state out.new) result.code) }
{
    match read_judgement(alloc, named, files) {
        Ok(judgement) => print_text(out, judgement.code, judgement.line.as_bytes()),
        Err(refusal) => print_refusal(out, &refusal),
    }
}

/// Reads the specification and the trace, and returns the judgement of the trace. Returns the refusal of the first
/// file that cannot be read, is too long or breaks a rule, and the out-of-memory refusal if memory runs out.
fn read_judgement<F: Files>(
    alloc: Global,
    named: TraceFiles<'_>,
    files: &mut F,
) -> Result<Judgement, Refusal>
    ensures reads { Prepares (PropsAnswers named.entry.specification.now named.entry.trace.now) GivesJudgement
        (named.entry.specification.now ∷ named.entry.trace.now ∷ []) (F.state files.old) (F.state files.new) result }
    ensures verdict { IfOk result HasVerdict }
{
    match load(alloc, &Specification, named.specification, files) {
        Ok(spec) => {
            let judgement = judge_file(alloc, &spec, named.trace, files);
            drop(spec);
            judgement
        }
        Err(refusal) => Err(refusal),
    }
}

fn judge_file<F: Files>(
    alloc: Global,
    spec: &Spec,
    trace: &str,
    files: &mut F,
) -> Result<Judgement, Refusal>
    ensures reads { Prepares (AsksTrace spec.now trace.now (λ (flown : Flown). WithoutFiles (IsJudgement spec.now flown))) GivesJudgement (trace.now ∷ [])
        (F.state files.old) (F.state files.new) result }
    ensures verdict { IfOk result HasVerdict }
{
    match load(alloc, &Trace { spec }, trace, files) {
        Ok(flown) => {
            let judgement = judge(spec, &flown);
            drop(flown);
            Ok(judgement)
        }
        Err(refusal) => Err(refusal),
    }
}

fn judge(spec: &Spec, flown: &Flown) -> Judgement
    requires rows { length flown.now.rows < 2 ^ 32 }
    requires reports { length flown.now.reports < 2 ^ 32 }
    ensures is { IsJudgement spec.now flown.now result.code result.line }
    ensures verdict { HasVerdict result }
{
    match props(spec, flown.rows.items(), flown.reports.items()) {
        Ok(()) => Judgement {
            code: ANSWERED,
            line: make_holds_line(flown),
        },
        Err(broken) => Judgement {
            code: BROKEN_PROPERTY,
            line: make_broken_line(broken),
        },
    }
}
