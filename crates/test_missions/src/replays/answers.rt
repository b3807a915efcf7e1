//! The output for the flight of a row.

use schedule_replay::ReplayError;
use schedule_replay::refusals::{make_illegal_line, make_short_line};
use scram_types::{Flown, Report, Row, Spec};
use std::io::{self, ErrorKind};
use std::rt::HostRuntime;
use test_kit::line_after;
use trace_text::lines::Line;
use trace_text::report_lines::{make_end_line, make_report_line};
use trace_text::row_lines::{make_app_line, make_row_line};

/// Prints the trace of a flight, or the line that refuses its schedule.
pub fn print_answer(
    rt: &HostRuntime,
    spec: &Spec,
    answer: &Result<Flown, ReplayError>,
    row: &str,
) -> io::Result<()> {
    match answer {
        Ok(flown) => print_flown(rt, spec, flown, row),
        Err(ReplayError::Illegal { index, given, next }) => {
            print_line(rt, &make_illegal_line(spec, *index, *given, *next))
        }
        Err(ReplayError::Short { events, next }) => {
            print_line(rt, &make_short_line(spec, *events, *next))
        }
        Err(ReplayError::NoMemory) => Err(ErrorKind::OutOfMemory.into()),
    }
}

/// Prints a line, which ends with a line feed.
pub fn print_line(rt: &HostRuntime, line: &Line) -> io::Result<()> {
    match str::from_utf8(line.as_bytes()) {
        Ok(text) => print!(rt; "{text}"),
        Err(_) => Err(ErrorKind::InvalidData.into()),
    }
}

fn print_flown(rt: &HostRuntime, spec: &Spec, flown: &Flown, row: &str) -> io::Result<()> {
    let rows = flown.rows.items();
    let reports = flown.reports.items();
    if line_after(row, "brief").is_none() {
        print_rows(rt, spec, rows)?;
    }
    print_reports(rt, spec, reports)?;
    print_end(rt, rows.len(), reports.len())
}

fn print_rows(rt: &HostRuntime, spec: &Spec, rows: &[Row]) -> io::Result<()> {
    for row in rows {
        print_line(rt, &make_row_line(spec, row))?;
        print_apps(rt, spec, row)?;
    }
    Ok(())
}

fn print_apps(rt: &HostRuntime, spec: &Spec, row: &Row) -> io::Result<()> {
    for (a, app) in spec.apps.items().iter().enumerate() {
        if a < 8 {
            print_line(rt, &make_app_line(spec, app, &row.acts[a], &row.areas[a]))?;
        }
    }
    Ok(())
}

fn print_reports(rt: &HostRuntime, spec: &Spec, reports: &[Report]) -> io::Result<()> {
    for report in reports {
        print_line(rt, &make_report_line(spec, report))?;
    }
    Ok(())
}

fn print_end(rt: &HostRuntime, frames: usize, reports: usize) -> io::Result<()> {
    match (u32::try_from(frames), u32::try_from(reports)) {
        (Ok(frames), Ok(reports)) => print_line(rt, &make_end_line(frames, reports)),
        _ => Err(ErrorKind::InvalidData.into()),
    }
}
