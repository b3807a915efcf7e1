//! Summaries of a flight, and the words that encode them.

ghost use Rattle.std.specs.Prelude.{◌≡◌};
ghost use Rattle.telemetry_tap.specs.Summaries.{running_conf};
ghost use Rattle.telemetry_tap.specs.Words.{summary_decode, summary_encode};

use scram_types::ConfId;

/// The value of `running` in a summary if there is no row or the last row runs no configuration.
pub const NONE_RUNNING: u8 = 255;

/// A summary of a flight after some of its frames.
#[derive(Clone, Copy, PartialEq, Eq)]
pub struct Summary {
    /// The number of frames that have ended, 0 to 20,000.
    pub frames: u32,
    /// The number of the configuration that the last row runs, or `NONE_RUNNING` if it runs none or there is no row.
    pub running: u8,
    /// The set of processors that are up in the last row, or in frame 0 if there is no row. Bit `p` is for processor
    /// `p`.
    pub up: u8,
    /// The number of reconfigurations that have begun, 0 to 20,000, including the one that is under way, if any.
    pub begun: u32,
}

impl Summary {
    /// Returns the configuration that the last row runs, or `None` if it runs none or there is no row.
    pub fn running_conf(&self) -> Option<ConfId>
        ensures { result ≡ running_conf self.now.running }
    {
        if self.running == NONE_RUNNING {
            None
        } else {
            Some(ConfId(self.running))
        }
    }
}

/// Returns the word that encodes a summary. The word has `frames` in bits 0 to 15, `begun` in bits 16 to 31,
/// `running` in bits 32 to 39 and `up` in bits 40 to 47.
pub fn summary_encode(summary: &Summary) -> u64
    ensures { result ≡ summary_encode summary.now }
{
    u64::from(summary.frames)
        + 65_536 * u64::from(summary.begun)
        + 4_294_967_296 * u64::from(summary.running)
        + 1_099_511_627_776 * u64::from(summary.up)
}

/// Returns the summary that a word encodes.
pub fn summary_decode(word: u64) -> Summary
    ensures { result ≡ summary_decode word }
{
    Summary {
        frames: (word % 65_536) as u32,
        running: (word / 4_294_967_296 % 256) as u8,
        up: (word / 1_099_511_627_776 % 256) as u8,
        begun: (word / 65_536 % 65_536) as u32,
    }
}
