//! Sinks to which bytes are written.
ghost use Rattle.std.specs.Prelude.{◌<◌, IfSome};
ghost use Rattle.scram_io.specs.Outside.{Flushes, Prints, SinkState, greatest_count};

use thiserror::Error;

/// The error of a put or a flush: some bytes were not taken or not sent. The count of faults rose.
#[derive(Clone, Copy, Debug, PartialEq, Eq, Error)]
#[error("the bytes could not be written")]
pub struct SinkFault;

/// A sink of bytes, which allocates nothing. Contracts see its `state`: the bytes sent, the bytes held back, the
/// number of further bytes that the sink is sure to take and send (`None` if unknown), and the count of faults. The
/// count never falls, and does not rise past `u64::MAX`.
pub trait Sink {
    ghost state: { Self → SinkState };

    /// Takes all of `bytes`, or a prefix of them if the call fails. The sink sends the bytes at once or later.
    fn put(&mut self, bytes: &[u8]) -> Result<(), SinkFault>
        ensures { Prints result (state self.old) (state self.new) bytes.now };

    /// Sends all bytes taken. If the result is `Ok`, no bytes are held back.
    fn flush(&mut self) -> Result<(), SinkFault>
        ensures { Flushes result (state self.old) (state self.new) };

    ghost surely_below: { (sink : Self) → IfSome (state sink).surely (λ _. (state sink).faults < greatest_count) };
}
