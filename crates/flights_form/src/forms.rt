//! The form `flights`, which flies each script in a file.

ghost use Rattle.std.specs.Prelude.{◌<◌, ◌≤◌, ◌∷◌, ◌++◌, ◌^◌, ◌-◌, [], length};
ghost use Rattle.scram_io.specs.Outside.{Prints};
ghost use Rattle.form_base.specs.Endings.{Ends, IsTaken, PrintsAnswer};
ghost use Rattle.flights_form.specs.Answers.{FlightsAnswers, outcome_line};
ghost use Rattle.flights_form.specs.Lines.{refused_start};
ghost use Rattle.flights_form.specs.Printing.{PrintsFlights, PrintsLine, PrintsLines, PrintsOutcome, GivesSeries};
ghost use Rattle.flights_form.specs.declared.limits.TheConstants.{MAX_SCRIPTS_BYTES};

use crate::lines::{make_flown_line, make_refused_start, make_totals_line};
use crate::outcomes::{Outcome, fly_line};
use crate::scripts::next_line;
use crate::series::{ScriptsFiles, Series, read_series};
use crate::totals::Totals;
use form_base::printing::{print_refusal, status_after};
use form_base::status::{ANSWERED, Status};
use scram_io::{Files, Sink, SinkFault};
use scram_types::Spec;
use std::alloc::Global;
use trace_text::lines::Line;

/// Flies the script on each line of a file by the specification in another file, on the caller's thread. Prints a
/// line for each script that was flown or refused, and a line of totals.
pub fn flights<F: Files, K: Sink>(
    alloc: Global,
    named: ScriptsFiles<'_>,
    files: &mut F,
    out: &mut K,
) -> Status
    ensures { Ends (FlightsAnswers named.entry.specification.now named.entry.scripts.now) (named.entry.specification.now ∷ named.entry.scripts.now ∷ [])
        (F.state files.old) (F.state files.new) (IsTaken (K.state out.old) (K.state out.new) result.code) }
{
    match read_series(alloc, named, files) {
        Ok(series) => {
            let status = fly_series(alloc, &series, out);
            drop(series);
            status
        }
        Err(refusal) => print_refusal(out, &refusal),
    }
}

fn fly_series<K: Sink>(alloc: Global, series: &Series, out: &mut K) -> Status
    requires { length series.now.scripts ≤ MAX_SCRIPTS_BYTES }
    ensures { PrintsAnswer (GivesSeries series.now) (K.state out.old) (K.state out.new) result.code }
{
    let put = put_flights(alloc, out, series.accepted.spec(), series.scripts.items());
    status_after(put, ANSWERED)
}

fn put_flights<K: Sink>(
    alloc: Global,
    out: &mut K,
    spec: &Spec,
    bytes: &[u8],
) -> Result<(), SinkFault>
    requires { length bytes.now ≤ MAX_SCRIPTS_BYTES }
    ensures { PrintsFlights spec.now bytes.now result (K.state out.old) (K.state out.new) }
{
    match put_lines(alloc, out, spec, bytes) {
        Ok(totals) => out.put(make_totals_line(&totals).as_bytes()),
        Err(fault) => Err(fault),
    }
}

// Flies each line of a file, prints a line for each outcome, and returns the totals.
fn put_lines<K: Sink>(
    alloc: Global,
    out: &mut K,
    spec: &Spec,
    bytes: &[u8],
) -> Result<Totals, SinkFault>
    requires { length bytes.now ≤ MAX_SCRIPTS_BYTES }
    ensures { PrintsLines spec.now bytes.now result (K.state out.old) (K.state out.new) }
{
    let mut totals = Totals::new();
    let mut rest = bytes;
    while let Some((line, behind)) = next_line(rest) {
        match put_line(alloc, out, spec, line, &totals) {
            Ok(next) => totals = next,
            Err(fault) => return Err(fault),
        }
        rest = behind;
    }
    Ok(totals)
}

// Flies the next line, prints the line for its outcome, and returns the totals with this outcome included.
fn put_line<K: Sink>(
    alloc: Global,
    out: &mut K,
    spec: &Spec,
    line: &[u8],
    totals: &Totals,
) -> Result<Totals, SinkFault>
    requires lines { totals.now.lines < 2 ^ 32 - 1 }
    requires refused { totals.now.refused ≤ totals.now.lines }
    ensures { PrintsLine spec.now line.now totals.now result (K.state out.old) (K.state out.new) }
{
    let outcome = fly_line(alloc, spec, line);
    let next = put_next(out, spec, &outcome, totals);
    drop(outcome);
    next
}

fn put_next<K: Sink>(
    out: &mut K,
    spec: &Spec,
    outcome: &Outcome,
    totals: &Totals,
) -> Result<Totals, SinkFault>
    requires lines { totals.now.lines < 2 ^ 32 - 1 }
    requires refused { totals.now.refused ≤ totals.now.lines }
    ensures { PrintsOutcome spec.now totals.now outcome.now result (K.state out.old) (K.state out.new) }
{
    match put_outcome(out, spec, totals.lines, outcome) {
        Ok(()) => Ok(totals.with(outcome)),
        Err(fault) => Err(fault),
    }
}

fn put_outcome<K: Sink>(
    out: &mut K,
    spec: &Spec,
    k: u32,
    outcome: &Outcome,
) -> Result<(), SinkFault>
    ensures { Prints result (K.state out.old) (K.state out.new) (outcome_line spec.now k outcome.now) }
{
    match outcome {
        Outcome::Flown(facts) => out.put(make_flown_line(spec, k, facts).as_bytes()),
        Outcome::Refused(line) => put_refused(out, k, line),
    }
}

fn put_refused<K: Sink>(out: &mut K, k: u32, line: &Line) -> Result<(), SinkFault>
    ensures { Prints result (K.state out.old) (K.state out.new) (refused_start k ++ line.now) }
{
    match out.put(make_refused_start(k).as_bytes()) {
        Ok(()) => out.put(line.as_bytes()),
        Err(fault) => Err(fault),
    }
}
