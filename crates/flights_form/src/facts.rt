//! The facts of a flight: the numbers that its line shows.

ghost use Rattle.std.specs.Prelude.{◌≡◌, ◌<◌, ◌-◌, ◌-ℤ◌, ◌^◌, length, pos};
ghost use Rattle.flights_form.specs.Facts.{facts_of, gap_of_app, greater_gap, greatest_gap, least_margin, lesser_margin, margin_in, margin_to};

use flight_facts::acts::count_apps;
use flight_facts::gaps::{Gap, longest_gap};
use flight_facts::margins::bound_of;
use flight_facts::unfinished::count_unfinished;
use scram_types::{AppId, ConfId, Report, Row, Spec};

/// The longest gap of an application.
#[derive(Clone, Copy)]
pub struct AppGap {
    pub app: AppId,
    pub gap: Gap,
}

/// The margin of a finished reconfiguration: its bound minus the number of frames that the reconfiguration took.
#[derive(Clone, Copy)]
pub struct Margin {
    pub frames: i64,
    pub report: Report,
}

/// The facts of a flight: the numbers of frames, reconfigurations and unfinished reconfigurations, the longest gap,
/// and the minimum margin.
#[derive(Clone, Copy)]
pub struct FlightFacts {
    pub frames: u32,
    pub reconfigurations: u32,
    pub unfinished: u32,
    pub gap: Option<AppGap>,
    pub margin: Option<Margin>,
}

/// Returns the facts of a flight with the given rows and reports.
pub fn facts_of(spec: &Spec, rows: &[Row], reports: &[Report]) -> FlightFacts
    requires rows { length rows.now < 2 ^ 32 }
    requires reports { length reports.now < 2 ^ 32 }
    ensures { result ≡ facts_of spec.now rows.now reports.now }
{
    FlightFacts {
        frames: rows.len() as u32,
        reconfigurations: reports.len() as u32,
        unfinished: count_unfinished(reports),
        gap: greatest_gap(spec, rows),
        margin: least_margin(spec, reports),
    }
}

fn greatest_gap(spec: &Spec, rows: &[Row]) -> Option<AppGap>
    requires { length rows.now < 2 ^ 32 }
    ensures { result ≡ greatest_gap rows.now 0 spec.now.apps }
{
    let mut greatest = None;
    let mut a = count_apps(spec);
    while a > 0 {
        a -= 1;
        greatest = greater_gap(gap_of_app(rows, a), greatest);
    }
    greatest
}

fn gap_of_app(rows: &[Row], a: usize) -> Option<AppGap>
    requires app { a < 8 }
    requires rows { length rows.now < 2 ^ 32 }
    ensures { result ≡ gap_of_app rows.now a }
{
    match longest_gap(rows, a) {
        Some(gap) => Some(AppGap {
            app: AppId(a as u8),
            gap,
        }),
        None => None,
    }
}

fn greater_gap(gap: Option<AppGap>, later: Option<AppGap>) -> Option<AppGap>
    ensures { result ≡ greater_gap gap later }
{
    match (gap, later) {
        (None, None) => None,
        (None, Some(later)) => Some(later),
        (Some(gap), None) => Some(gap),
        (Some(gap), Some(later)) => if gap.gap.frames < later.gap.frames {
            Some(later)
        } else {
            Some(gap)
        },
    }
}

fn least_margin(spec: &Spec, reports: &[Report]) -> Option<Margin>
    ensures { result ≡ least_margin spec.now reports.now }
{
    let mut least = None;
    let mut k = reports.len();
    while k > 0 {
        k -= 1;
        least = lesser_margin(margin_in(spec, &reports[k]), least);
    }
    least
}

fn margin_in(spec: &Spec, report: &Report) -> Option<Margin>
    ensures { result ≡ margin_in spec.now report.now }
{
    margin_to(report, report.to, bound_of(spec, report))
}

fn margin_to(report: &Report, to: Option<ConfId>, bound: Option<u32>) -> Option<Margin>
    ensures { result ≡ margin_to report.now to bound }
{
    match (to, bound) {
        (Some(_), Some(bound)) => Some(Margin {
            frames: frames_below(bound, report.end.saturating_sub(report.begin)),
            report: *report,
        }),
        (None, _) => None,
        (Some(_), None) => None,
    }
}

fn frames_below(bound: u32, took: u32) -> i64
    ensures { result ≡ pos bound -ℤ pos took }
{
    i64::from(bound) - i64::from(took)
}

fn lesser_margin(margin: Option<Margin>, later: Option<Margin>) -> Option<Margin>
    ensures { result ≡ lesser_margin margin later }
{
    match (margin, later) {
        (None, None) => None,
        (None, Some(later)) => Some(later),
        (Some(margin), None) => Some(margin),
        (Some(margin), Some(later)) => if later.frames < margin.frames {
            Some(later)
        } else {
            Some(margin)
        },
    }
}
