//! A series of flights by an accepted specification and the scripts in a file.

ghost use Rattle.std.specs.Prelude.{◌≤◌, ◌∷◌, [], IfOk, ℕ, List, length};
ghost use Rattle.form_base.specs.Answers.{WithoutFiles};
ghost use Rattle.form_base.specs.Endings.{Prepares, PreparesWithoutFiles};
ghost use Rattle.flights_form.specs.Answers.{FlightsAnswers, ScriptsAnswers};
ghost use Rattle.flights_form.specs.Printing.{GivesSeries};
ghost use Rattle.flights_form.specs.Scripts.{AsksScripts};
ghost use Rattle.flights_form.specs.declared.limits.TheConstants.{MAX_SCRIPTS_BYTES};

use crate::scripts::load_scripts;
use coverage_check::Accepted;
use form_base::acceptance::accept_specification;
use form_base::loads::load;
use form_base::refusals::Refusal;
use form_base::specifications::Specification;
use scram_io::Files;
use scram_types::{List, Spec};
use std::alloc::Global;

/// The names of the two files for a series of flights: the file of a specification, and a file with a script on each
/// line.
#[derive(Clone, Copy)]
pub struct ScriptsFiles<'a> {
    pub specification: &'a str,
    pub scripts: &'a str,
}

/// An accepted specification, and the bytes of a file with a script on each line.
pub struct Series {
    pub accepted: Accepted,
    pub scripts: List<u8>,
}

// A derived drop is laid out in the proof of each function that drops the value, and this one is a call.
impl Drop for Series {
    fn drop(self) {
        let Series {
            accepted: _,
            scripts: _,
        } = self;
    }
}

/// Reads the specification and the file of scripts, and checks that the specification is accepted.
///
/// # Errors
///
/// Returns a refusal if a file cannot be read or is too long, or if the specification breaks a rule or is not
/// accepted. Returns the out-of-memory refusal if memory runs out.
pub fn read_series<F: Files>(
    alloc: Global,
    named: ScriptsFiles<'_>,
    files: &mut F,
) -> Result<Series, Refusal>
    ensures reads { Prepares (FlightsAnswers named.entry.specification.now named.entry.scripts.now) GivesSeries
        (named.entry.specification.now ∷ named.entry.scripts.now ∷ []) (F.state files.old) (F.state files.new) result }
    ensures few { IfOk result (λ series. length series.scripts ≤ MAX_SCRIPTS_BYTES) }
{
    match load(alloc, &Specification, named.specification, files) {
        Ok(spec) => read_scripts(alloc, spec, named.scripts, files),
        Err(refusal) => Err(refusal),
    }
}

fn read_scripts<F: Files>(
    alloc: Global,
    spec: Spec,
    scripts: &str,
    files: &mut F,
) -> Result<Series, Refusal>
    ensures reads { Prepares (AsksScripts scripts.now (λ (bytes : List ℕ). WithoutFiles (ScriptsAnswers spec bytes))) GivesSeries (scripts.now ∷ [])
        (F.state files.old) (F.state files.new) result }
    ensures few { IfOk result (λ series. length series.scripts ≤ MAX_SCRIPTS_BYTES) }
{
    match load_scripts(alloc, scripts, files) {
        Ok(scripts) => make_series(alloc, spec, scripts),
        Err(refusal) => {
            drop(spec);
            Err(refusal)
        }
    }
}

fn make_series(alloc: Global, spec: Spec, scripts: List<u8>) -> Result<Series, Refusal>
    requires { length scripts ≤ MAX_SCRIPTS_BYTES }
    ensures prepares { PreparesWithoutFiles (ScriptsAnswers spec scripts) GivesSeries result }
    ensures few { IfOk result (λ series. length series.scripts ≤ MAX_SCRIPTS_BYTES) }
{
    match accept_specification(alloc, spec) {
        Ok(accepted) => Ok(Series { accepted, scripts }),
        Err(refusal) => {
            drop(scripts);
            Err(refusal)
        }
    }
}
