//! The form `columns`, which prints a trace as a table of comma-separated values.

ghost use Rattle.std.specs.Prelude.{◌<◌, ◌∷◌, [], length};
ghost use Rattle.scram_io.specs.Outside.{Prints};
ghost use Rattle.form_base.specs.Endings.{Ends, IsTaken};
ghost use Rattle.form_base.specs.Texts.{texts_below};
ghost use Rattle.form_base.specs.trace_files.Looks.{ViewAnswers};
ghost use Rattle.trace_forms.specs.columns_form.Table.{app_fields_text, app_head_text, columns_text, fields_end, fields_text, heads_end, heads_text, row_line_text};

use crate::columns_form::fields::{make_app_fields, make_row_fields};
use crate::columns_form::heads::{make_app_head, make_row_head};
use flight_facts::acts::count_apps;
use form_base::printing::{print_refusal, status_after};
use form_base::status::{ANSWERED, Status};
use form_base::trace_files::{TraceFiles, read_flight};
use scram_io::{Files, Sink, SinkFault};
use scram_types::{Row, Spec};
use std::alloc::Global;

/// Prints the trace in a file as a table of comma-separated values.
pub fn columns_form<F: Files, K: Sink>(
    alloc: Global,
    named: TraceFiles<'_>,
    files: &mut F,
    out: &mut K,
) -> Status
    ensures { Ends (ViewAnswers columns_text named.entry.specification.now named.entry.trace.now) (named.entry.specification.now ∷ named.entry.trace.now ∷ [])
        (F.state files.old) (F.state files.new) (IsTaken (K.state out.old) (K.state out.new) result.code) }
{
    match read_flight(alloc, named, files) {
        Ok(flight) => {
            let put = put_columns(out, &flight.spec, flight.flown.rows.items());
            drop(flight);
            status_after(put, ANSWERED)
        }
        Err(refusal) => print_refusal(out, &refusal),
    }
}

fn put_columns<K: Sink>(out: &mut K, spec: &Spec, rows: &[Row]) -> Result<(), SinkFault>
    ensures { Prints result (K.state out.old) (K.state out.new) (columns_text spec.now rows.now []) }
{
    match put_heads(out, spec) {
        Ok(()) => put_rows(out, spec, rows),
        Err(fault) => Err(fault),
    }
}

fn put_heads<K: Sink>(out: &mut K, spec: &Spec) -> Result<(), SinkFault>
    ensures { Prints result (K.state out.old) (K.state out.new) (heads_text spec.now) }
{
    match out.put(make_row_head(spec).as_bytes()) {
        Ok(()) => put_heads_end(out, spec),
        Err(fault) => Err(fault),
    }
}

fn put_heads_end<K: Sink>(out: &mut K, spec: &Spec) -> Result<(), SinkFault>
    ensures { Prints result (K.state out.old) (K.state out.new) (heads_end spec.now) }
{
    match put_app_heads(out, spec) {
        Ok(()) => out.put(b"\n"),
        Err(fault) => Err(fault),
    }
}

fn put_app_heads<K: Sink>(out: &mut K, spec: &Spec) -> Result<(), SinkFault>
    ensures { Prints result (K.state out.old) (K.state out.new) (texts_below (app_head_text spec.now) (length spec.now.apps)) }
{
    for a in 0..count_apps(spec) {
        match put_app_head(out, spec, a) {
            Ok(()) => {}
            Err(fault) => return Err(fault),
        }
    }
    Ok(())
}

fn put_app_head<K: Sink>(out: &mut K, spec: &Spec, a: usize) -> Result<(), SinkFault>
    ensures { Prints result (K.state out.old) (K.state out.new) (app_head_text spec.now a) }
{
    match spec.apps.items().get(a) {
        Some(app) => out.put(make_app_head(app).as_bytes()),
        None => Ok(()),
    }
}

fn put_rows<K: Sink>(out: &mut K, spec: &Spec, rows: &[Row]) -> Result<(), SinkFault>
    ensures { Prints result (K.state out.old) (K.state out.new) (texts_below (row_line_text spec.now rows.now) (length rows.now)) }
{
    for k in 0..rows.len() {
        match put_row(out, spec, rows, k) {
            Ok(()) => {}
            Err(fault) => return Err(fault),
        }
    }
    Ok(())
}

fn put_row<K: Sink>(out: &mut K, spec: &Spec, rows: &[Row], k: usize) -> Result<(), SinkFault>
    ensures { Prints result (K.state out.old) (K.state out.new) (row_line_text spec.now rows.now k) }
{
    match rows.get(k) {
        Some(row) => put_fields(out, spec, row),
        None => Ok(()),
    }
}

fn put_fields<K: Sink>(out: &mut K, spec: &Spec, row: &Row) -> Result<(), SinkFault>
    ensures { Prints result (K.state out.old) (K.state out.new) (fields_text spec.now row.now) }
{
    match out.put(make_row_fields(spec, row).as_bytes()) {
        Ok(()) => put_fields_end(out, spec, row),
        Err(fault) => Err(fault),
    }
}

fn put_fields_end<K: Sink>(out: &mut K, spec: &Spec, row: &Row) -> Result<(), SinkFault>
    ensures { Prints result (K.state out.old) (K.state out.new) (fields_end spec.now row.now) }
{
    match put_app_fields(out, spec, row) {
        Ok(()) => out.put(b"\n"),
        Err(fault) => Err(fault),
    }
}

fn put_app_fields<K: Sink>(out: &mut K, spec: &Spec, row: &Row) -> Result<(), SinkFault>
    ensures { Prints result (K.state out.old) (K.state out.new) (texts_below (app_fields_text spec.now row.now) (length spec.now.apps)) }
{
    for a in 0..count_apps(spec) {
        match put_app(out, spec, row, a) {
            Ok(()) => {}
            Err(fault) => return Err(fault),
        }
    }
    Ok(())
}

fn put_app<K: Sink>(out: &mut K, spec: &Spec, row: &Row, a: usize) -> Result<(), SinkFault>
    requires { a < 8 }
    ensures { Prints result (K.state out.old) (K.state out.new) (app_fields_text spec.now row.now a) }
{
    match spec.apps.items().get(a) {
        Some(app) => out.put(make_app_fields(spec, row, a, app).as_bytes()),
        None => Ok(()),
    }
}
