//! The form `summary`, which prints the summary of a flight.

ghost use Rattle.std.specs.Prelude.{◌≡◌, ◌<◌, ◌≤◌, ◌+◌, ◌∷◌, ◌^◌, [], length};
ghost use Rattle.scram_io.specs.Outside.{Prints};
ghost use Rattle.form_base.specs.Endings.{Ends, IsTaken};
ghost use Rattle.form_base.specs.Texts.{texts_below};
ghost use Rattle.form_base.specs.trace_files.Looks.{ViewAnswers};
ghost use Rattle.trace_forms.specs.summary_form.Summary.{app_text, change_text, changes_text, first_row_after_decision, reconfiguration_text, report_before, report_text, rows_after_decision, summary_text, text_after_flight_line, totals_text};

use crate::summary_form::lines::{
    make_app_line, make_change_line, make_flight_line, make_reconfiguration_line, make_world_line,
};
use flight_facts::acts::count_apps;
use flight_facts::decisions::{decided_in, differ};
use form_base::printing::{print_refusal, status_after};
use form_base::status::{ANSWERED, Status};
use form_base::trace_files::{TraceFiles, read_flight};
use scram_io::{Files, Sink, SinkFault};
use scram_types::lookups::{env_before, env_in};
use scram_types::{Flown, Report, Row, Spec};
use std::alloc::Global;

/// Prints the summary of the flight whose trace is in a file.
pub fn summary_form<F: Files, K: Sink>(
    alloc: Global,
    named: TraceFiles<'_>,
    files: &mut F,
    out: &mut K,
) -> Status
    ensures { Ends (ViewAnswers summary_text named.entry.specification.now named.entry.trace.now) (named.entry.specification.now ∷ named.entry.trace.now ∷ [])
        (F.state files.old) (F.state files.new) (IsTaken (K.state out.old) (K.state out.new) result.code) }
{
    match read_flight(alloc, named, files) {
        Ok(flight) => {
            let status = status_after(put_summary(out, &flight.spec, &flight.flown), ANSWERED);
            drop(flight);
            status
        }
        Err(refusal) => print_refusal(out, &refusal),
    }
}

fn put_summary<K: Sink>(out: &mut K, spec: &Spec, flown: &Flown) -> Result<(), SinkFault>
    requires rows { length flown.now.rows < 2 ^ 32 }
    requires reports { length flown.now.reports < 2 ^ 32 }
    ensures { Prints result (K.state out.old) (K.state out.new) (summary_text spec.now flown.now.rows flown.now.reports) }
{
    match out.put(make_flight_line(flown).as_bytes()) {
        Ok(()) => put_after_flight_line(out, spec, flown.rows.items(), flown.reports.items()),
        Err(fault) => Err(fault),
    }
}

// Writes the lines of a summary that follow the line of the flight.
fn put_after_flight_line<K: Sink>(
    out: &mut K,
    spec: &Spec,
    rows: &[Row],
    reports: &[Report],
) -> Result<(), SinkFault>
    requires rows { length rows.now < 2 ^ 32 }
    ensures { Prints result (K.state out.old) (K.state out.new) (text_after_flight_line spec.now rows.now reports.now) }
{
    match put_reconfigurations(out, spec, rows, reports) {
        Ok(()) => put_totals(out, spec, rows),
        Err(fault) => Err(fault),
    }
}

fn put_reconfigurations<K: Sink>(
    out: &mut K,
    spec: &Spec,
    rows: &[Row],
    reports: &[Report],
) -> Result<(), SinkFault>
    requires rows { length rows.now < 2 ^ 32 }
    ensures { Prints result (K.state out.old) (K.state out.new) (texts_below (reconfiguration_text spec.now rows.now reports.now) (length reports.now)) }
{
    for n in 0..reports.len() {
        match put_reconfiguration(out, spec, rows, reports, n) {
            Ok(()) => {}
            Err(fault) => return Err(fault),
        }
    }
    Ok(())
}

fn put_reconfiguration<K: Sink>(
    out: &mut K,
    spec: &Spec,
    rows: &[Row],
    reports: &[Report],
    n: usize,
) -> Result<(), SinkFault>
    requires rows { length rows.now < 2 ^ 32 }
    ensures { Prints result (K.state out.old) (K.state out.new) (reconfiguration_text spec.now rows.now reports.now n) }
{
    match reports.get(n) {
        Some(report) => put_report(out, spec, rows, report_before(reports, n), report),
        None => Ok(()),
    }
}

fn report_before(reports: &[Report], n: usize) -> Option<Report>
    ensures { result ≡ report_before reports.now n }
{
    if n == 0 {
        return None;
    }
    match reports.get(n - 1) {
        Some(report) => Some(*report),
        None => None,
    }
}

fn put_report<K: Sink>(
    out: &mut K,
    spec: &Spec,
    rows: &[Row],
    earlier: Option<Report>,
    report: &Report,
) -> Result<(), SinkFault>
    requires rows { length rows.now < 2 ^ 32 }
    ensures { Prints result (K.state out.old) (K.state out.new) (report_text spec.now rows.now earlier report.now) }
{
    match out.put(make_reconfiguration_line(spec, rows, earlier, report).as_bytes()) {
        Ok(()) => put_changes(out, spec, rows, report),
        Err(fault) => Err(fault),
    }
}

fn put_changes<K: Sink>(
    out: &mut K,
    spec: &Spec,
    rows: &[Row],
    report: &Report,
) -> Result<(), SinkFault>
    requires rows { length rows.now < 2 ^ 32 }
    ensures { Prints result (K.state out.old) (K.state out.new) (changes_text spec.now rows.now report.now) }
{
    let first = first_row_after_decision(rows, report);
    for j in 0..rows_after_decision(rows, report) {
        match put_change(out, spec, rows, first + j) {
            Ok(()) => {}
            Err(fault) => return Err(fault),
        }
    }
    Ok(())
}

fn first_row_after_decision(rows: &[Row], report: &Report) -> usize
    ensures value { result ≡ first_row_after_decision rows.now report.now }
    ensures small { result ≤ 2 ^ 32 + 1 }
{
    decided_in(rows, report.begin) + 1
}

fn rows_after_decision(rows: &[Row], report: &Report) -> usize
    ensures value { result ≡ rows_after_decision rows.now report.now }
    ensures within { 0 < result → result + first_row_after_decision rows.now report.now ≤ length rows.now }
{
    let over = (report.end as usize + 1).min(rows.len());
    over.saturating_sub(first_row_after_decision(rows, report))
}

fn put_change<K: Sink>(out: &mut K, spec: &Spec, rows: &[Row], k: usize) -> Result<(), SinkFault>
    requires { k < 2 ^ 32 }
    ensures { Prints result (K.state out.old) (K.state out.new) (change_text spec.now rows.now k) }
{
    if differ(spec, env_before(spec, rows, k), env_in(rows, k)) {
        out.put(make_change_line(spec, rows, k).as_bytes())
    } else {
        Ok(())
    }
}

// Writes the lines of the applications and of the world.
fn put_totals<K: Sink>(out: &mut K, spec: &Spec, rows: &[Row]) -> Result<(), SinkFault>
    requires rows { length rows.now < 2 ^ 32 }
    ensures { Prints result (K.state out.old) (K.state out.new) (totals_text spec.now rows.now) }
{
    match put_apps(out, spec, rows) {
        Ok(()) => out.put(make_world_line(rows).as_bytes()),
        Err(fault) => Err(fault),
    }
}

fn put_apps<K: Sink>(out: &mut K, spec: &Spec, rows: &[Row]) -> Result<(), SinkFault>
    requires rows { length rows.now < 2 ^ 32 }
    ensures { Prints result (K.state out.old) (K.state out.new) (texts_below (app_text spec.now rows.now) (length spec.now.apps)) }
{
    for a in 0..count_apps(spec) {
        match put_app(out, spec, rows, a) {
            Ok(()) => {}
            Err(fault) => return Err(fault),
        }
    }
    Ok(())
}

fn put_app<K: Sink>(out: &mut K, spec: &Spec, rows: &[Row], a: usize) -> Result<(), SinkFault>
    requires rows { length rows.now < 2 ^ 32 }
    requires app { a < 8 }
    ensures { Prints result (K.state out.old) (K.state out.new) (app_text spec.now rows.now a) }
{
    match spec.apps.items().get(a) {
        Some(app) => out.put(make_app_line(rows, a, app).as_bytes()),
        None => Ok(()),
    }
}
