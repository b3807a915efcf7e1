//! Readers of a tap at which the first rows of a flight are published.

ghost use Rattle.std.specs.Prelude.{◌≡◌};
ghost use Rattle.frame_model.specs.Flights.{rows_of};

use crate::watches::summaries::print_summary;
use coverage_check::Mission;
use scram_types::Row;
use std::io;
use std::rt::HostRuntime;
use telemetry_tap::{Publisher, Summary, Tap, Watch};
use test_kit::{fly_alone, given, mission_of_texts, uav_text};

/// Publishes the first `count` rows of the mission of `uav` with the script `script`, and prints the summaries that
/// the readers see.
pub fn note(rt: &HostRuntime, count: u32, script: &str) -> io::Result<()> {
    let text = uav_text(rt.alloc())?;
    let mission = mission_of_texts(rt.alloc(), text.as_str(), script)?;
    let noted = note_mission(rt, count, &mission);
    drop(mission);
    noted
}

fn note_mission(rt: &HostRuntime, count: u32, mission: &Mission) -> io::Result<()> {
    let flown = fly_alone(rt.alloc(), mission)?;
    let noted = note_rows(rt, count, mission, flown.rows.items());
    drop(flown);
    noted
}

fn note_rows(rt: &HostRuntime, count: u32, mission: &Mission, rows: &[Row]) -> io::Result<()>
    requires { rows.now ≡ rows_of mission.now.spec mission.now.script }
{
    let (tap, writer, mut readers) = given(Tap::open(rt.alloc(), mission, 1))?;
    let mut publisher = Publisher { tap: &tap, writer };
    hand_rows(rows, count, &mut publisher);
    let before = match readers.first_mut() {
        Some(reader) => Some(tap.read(reader)),
        None => None,
    };
    let Publisher { tap, mut writer } = publisher;
    let mut reader = tap.note(&mut writer);
    print_summaries(rt, before, tap.read(&mut reader))
}

/// Prints the summary `before`, if there is one, and the summary `note`.
fn print_summaries(rt: &HostRuntime, before: Option<Summary>, note: Summary) -> io::Result<()> {
    if let Some(before) = before {
        print_summary(rt, "before", &before)?;
    }
    print_summary(rt, "note", &note)
}

/// Hands the first `count` rows, or all rows if there are fewer, to a watch. The watch must have taken no row before.
fn hand_rows<W: Watch>(rows: &[Row], count: u32, watch: &mut W)
    requires rows { rows.now ≡ rows_of (W.watched watch.old).spec (W.watched watch.old).script }
    requires taken { W.taken watch.old ≡ 0 }
    ensures { W.watched watch.new ≡ W.watched watch.old }
{
    for i in 0..count {
        match rows.get(i as usize) {
            Some(row) => watch.row(row),
            None => return,
        }
    }
}
