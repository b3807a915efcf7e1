//! Gaps: consecutive rows in which an application neither ran nor was off.

ghost use Rattle.std.specs.Prelude.{◌≡◌, ◌<◌, ◌≤◌, ◌+◌, ◌++◌, ◌^◌, length};
ghost use Rattle.scram_types.specs.declared.limits.TheConstants.{MAX_LINE_BYTES};
ghost use Rattle.flight_facts.specs.Gaps.{gap_of, gap_text, is_missing, longer, longest_gap};

use crate::acts::{ActWord, act_word};
use scram_types::Row;
use trace_text::lines::Line;

/// Consecutive rows in which an application neither ran nor was off: the number of rows, and the index of the first
/// of them.
#[derive(Clone, Copy)]
pub struct Gap {
    pub frames: u32,
    pub at: u32,
}

/// Returns the longest gap of an application, or `None` if there is no gap. If several gaps are the longest, returns
/// the first of them.
pub fn longest_gap(rows: &[Row], app: usize) -> Option<Gap>
    requires app { app < 8 }
    requires rows { length rows.now < 2 ^ 32 }
    ensures { result ≡ longest_gap app 0 rows.now }
{
    let mut longest = None;
    let mut frames: u32 = 0;
    let mut k = rows.len();
    while k > 0 {
        k -= 1;
        frames = if is_missing(act_word(&rows[k].acts[app])) {
            frames + 1
        } else {
            0
        };
        longest = longer(gap_of(k as u32, frames), longest);
    }
    longest
}

/// Appends ` gap FRAMES at ROW`. `FRAMES` is the number of rows of a gap, and `ROW` is the index of its first row. If
/// there is no gap, appends ` gap 0 at -`.
pub fn add_gap(line: &mut Line, gap: Option<Gap>)
    requires { length line.old + 29 ≤ MAX_LINE_BYTES }
    ensures text { line.new ≡ line.old ++ gap_text gap }
    ensures short { length line.new ≤ length line.old + 29 }
{
    match gap {
        Some(gap) => {
            line.text(b" gap ");
            line.number(gap.frames);
            line.text(b" at ");
            line.number(gap.at);
        }
        None => line.text(b" gap 0 at -"),
    }
}

fn is_missing(word: ActWord) -> bool
    ensures { result ≡ is_missing word }
{
    match word {
        ActWord::Ran => false,
        ActWord::Halting => true,
        ActWord::Preparing => true,
        ActWord::Initialising => true,
        ActWord::Held => true,
        ActWord::Off => false,
        ActWord::Lost => true,
    }
}

fn gap_of(at: u32, frames: u32) -> Option<Gap>
    ensures { result ≡ gap_of at frames }
{
    if frames == 0 {
        None
    } else {
        Some(Gap { frames, at })
    }
}

fn longer(gap: Option<Gap>, later: Option<Gap>) -> Option<Gap>
    ensures { result ≡ longer gap later }
{
    match (gap, later) {
        (None, None) => None,
        (None, Some(later)) => Some(later),
        (Some(gap), None) => Some(gap),
        (Some(gap), Some(later)) => if gap.frames < later.frames {
            Some(later)
        } else {
            Some(gap)
        },
    }
}
