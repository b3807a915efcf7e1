//! The form `watch`, which flies a mission with a thread for each processor, while readers read the summary of the
//! flight.

ghost use Rattle.std.specs.Prelude.{◌≡◌, ◌∷◌, [], IfOk};
ghost use Rattle.form_base.specs.Answers.{Gives};
ghost use Rattle.form_base.specs.Endings.{Ends, IsTaken, PrintsAnswer};
ghost use Rattle.form_base.specs.declared.status.TheConstants.{ANSWERED};
ghost use Rattle.telemetry_tap.specs.Summaries.{whole_summary};
ghost use Rattle.telemetry_tap.specs.Taps.{IsReaderOf, rows_published, tap_mission};
ghost use Rattle.flight_forms.specs.Answers.{WatchAnswers};
ghost use Rattle.flight_forms.specs.Texts.{watch_text};

use crate::lines::make_watch_line;
use app_model::Boxes;
use coverage_check::Mission;
use form_base::mission_files::{MissionFiles, read_mission};
use form_base::printing::{print_refusal, print_text};
use form_base::refusals::Refusal;
use form_base::status::{ANSWERED, Status};
use scram_io::{Files, Sink};
use scram_types::NoMemory;
use std::alloc::AllocGlobal;
use std::sync::Wait;
use std::thread;
use std::thread::Threads;
use telemetry_tap::{Publisher, Reader, Summary, Tap, Watch};
use word_deck::WordFlight;

/// The maximum number of summaries that a reader reads.
const MAX_READS: u32 = 1_000_000;

/// Flies the mission of a specification and a script with a thread for each processor, while two readers read the
/// summary of the flight. Prints the last summary.
pub fn watch<R: AllocGlobal + Threads + Wait + Sync, F: Files, K: Sink>(
    rt: &R,
    named: MissionFiles<'_>,
    files: &mut F,
    out: &mut K,
    boxes: Boxes,
) -> Status
    ensures { Ends (WatchAnswers named.entry.specification.now named.entry.script.now) (named.entry.specification.now ∷ named.entry.script.now ∷ [])
        (F.state files.old) (F.state files.new) (IsTaken (K.state out.old) (K.state out.new) result.code) }
{
    match read_mission(rt.alloc(), named, files) {
        Ok(mission) => {
            let status = watch_mission(rt, &mission, out, boxes);
            drop(mission);
            status
        }
        Err(refusal) => {
            drop(boxes);
            print_refusal(out, &refusal)
        }
    }
}

fn watch_mission<R: AllocGlobal + Threads + Wait + Sync, K: Sink>(
    rt: &R,
    mission: &Mission,
    out: &mut K,
    boxes: Boxes,
) -> Status
    ensures { PrintsAnswer (Gives (ANSWERED, watch_text mission.now)) (K.state out.old) (K.state out.new) result.code }
{
    match fly_watched(rt, mission, boxes) {
        Ok(summary) => {
            let line = make_watch_line(mission.spec(), &summary);
            print_text(out, ANSWERED, line.as_bytes())
        }
        Err(NoMemory) => print_refusal(out, &Refusal::out_of_memory()),
    }
}

// Returns the summary of all frames of a mission that is flown while two readers read the summary of the flight.
fn fly_watched<R: AllocGlobal + Threads + Wait + Sync>(
    rt: &R,
    mission: &Mission,
    boxes: Boxes,
) -> Result<Summary, NoMemory>
    ensures { IfOk result (λ summary. summary ≡ whole_summary mission.now) }
{
    let flight = WordFlight::open(rt.alloc(), mission, boxes)?;
    let (tap, writer, mut readers) = Tap::open(rt.alloc(), mission, 2)?;
    let Some(one) = readers.pop() else {
        unreachable!()
    };
    let Some(other) = readers.pop() else {
        unreachable!()
    };
    let publisher = Publisher { tap: &tap, writer };
    Ok(last_summary(fly_read(rt, &tap, flight, publisher, (one, other))))
}

// Flies the mission of a tap while two readers read the summary of the flight, and returns the watch. The watch is
// passed through the scope by value, since nothing is known about a reference that a closure captures.
fn fly_read<'a, W: Watch, R: Threads + Wait + Sync>(
    rt: &R,
    tap: &Tap<'a>,
    flight: WordFlight<'a>,
    watch: W,
    readers: (Reader, Reader),
) -> W
    requires watched { W.watched watch ≡ flight.mission.now }
    requires taken { W.taken watch ≡ 0 }
    requires one { IsReaderOf tap.now readers.0 }
    requires other { IsReaderOf tap.now readers.1 }
    ensures watched { W.watched result ≡ flight.entry.mission.now }
    ensures taken { W.taken result ≡ flight.entry.mission.now.script.frames }
{
    let (one, other) = readers;
    thread::scope(
        thread::scope_env(),
        rt,
        |scope| -> W
            requires watched { W.watched watch ≡ flight.mission.now }
            requires taken { W.taken watch ≡ 0 }
            requires one { IsReaderOf tap.now one }
            requires other { IsReaderOf tap.now other }
            ensures watched { W.watched result ≡ flight.entry.mission.now }
            ensures taken { W.taken result ≡ flight.entry.mission.now.script.frames }
        {
            let mut watch = watch;
            let _one = scope.spawn(
                move ||
                    requires { IsReaderOf tap.now one }
                { read_to_the_end(tap, one) },
            );
            let _other = scope.spawn(
                move ||
                    requires { IsReaderOf tap.now other }
                { read_to_the_end(tap, other) },
            );
            let _landed = flight.run_watched(rt, &mut watch);
            watch
        },
    )
}

// Returns the summary of all frames. The writer must have published all rows.
fn last_summary(publisher: Publisher) -> Summary
    requires { rows_published publisher.writer ≡ (tap_mission publisher.tap.now).script.frames }
    ensures { result ≡ whole_summary (tap_mission publisher.entry.tap.now) }
{
    let Publisher { tap, mut writer } = publisher;
    let mut reader = tap.note(&mut writer);
    tap.read(&mut reader)
}

// Reads summaries until one covers all frames of the mission, but reads at most `MAX_READS` summaries.
fn read_to_the_end(tap: &Tap, mut reader: Reader)
    requires { IsReaderOf tap.now reader }
{
    let frames = tap.mission().script().frames;
    for _ in 0..MAX_READS {
        if tap.read(&mut reader).frames == frames {
            return;
        }
    }
}
