//! A trace with the specification of its missions, read from two files.

ghost use Rattle.std.specs.Prelude.{◌∷◌, ◌<◌, ◌^◌, [], IfOk, length};
ghost use Rattle.scram_types.specs.declared.rows.Flown.{Flown};
ghost use Rattle.form_base.specs.Answers.{Gives, WithoutFiles};
ghost use Rattle.form_base.specs.Endings.{Prepares};
ghost use Rattle.form_base.specs.declared.status.TheConstants.{ANSWERED};
ghost use Rattle.form_base.specs.trace_files.Looks.{GivesView, IsCounted, View, ViewAnswers};
ghost use Rattle.form_base.specs.trace_files.Traces.{AsksTrace};

use crate::loads::load;
use crate::refusals::Refusal;
use crate::specifications::Specification;
use crate::trace_files::documents::Trace;
use scram_io::Files;
use scram_types::{Flown, Spec};
use std::alloc::Global;

/// The names of the files of a specification and of a trace of its missions.
#[derive(Clone, Copy)]
pub struct TraceFiles<'a> {
    pub specification: &'a str,
    pub trace: &'a str,
}

/// A specification, and a trace of its missions.
pub struct Flight {
    pub spec: Spec,
    pub flown: Flown,
}

// A derived drop is laid out in the proof of each function that drops the value, and this one is a call.
impl Drop for Flight {
    fn drop(self) {
        let Flight { spec: _, flown: _ } = self;
    }
}

/// Reads a specification and a trace from their files.
///
/// # Errors
///
/// Returns the refusal of the first file that cannot be read, is too long or breaks a rule. Returns the out-of-memory
/// refusal if memory runs out.
pub fn read_flight<F: Files>(
    alloc: Global,
    named: TraceFiles<'_>,
    files: &mut F,
) -> Result<Flight, Refusal>
    ensures reads { (view : View) → Prepares (ViewAnswers view named.entry.specification.now named.entry.trace.now) (GivesView view)
        (named.entry.specification.now ∷ named.entry.trace.now ∷ []) (F.state files.old) (F.state files.new) result }
    ensures counted { IfOk result IsCounted }
{
    match load(alloc, &Specification, named.specification, files) {
        Ok(spec) => match read_flown(alloc, &spec, named.trace, files) {
            Ok(flown) => Ok(Flight { spec, flown }),
            Err(refusal) => {
                drop(spec);
                Err(refusal)
            }
        },
        Err(refusal) => Err(refusal),
    }
}

fn read_flown<F: Files>(
    alloc: Global,
    spec: &Spec,
    trace: &str,
    files: &mut F,
) -> Result<Flown, Refusal>
    ensures reads { (view : View) → Prepares (AsksTrace spec.now trace.now (λ (flown : Flown). WithoutFiles
        (Gives (ANSWERED, view spec.now flown.rows flown.reports))))
        (λ (flown : Flown). Gives (ANSWERED, view spec.now flown.rows flown.reports)) (trace.now ∷ []) (F.state files.old) (F.state files.new) result }
    ensures rows { IfOk result (λ flown. length flown.rows < 2 ^ 32) }
    ensures reports { IfOk result (λ flown. length flown.reports < 2 ^ 32) }
{
    match load(alloc, &Trace { spec }, trace, files) {
        Ok(flown) => Ok(flown),
        Err(refusal) => Err(refusal),
    }
}
