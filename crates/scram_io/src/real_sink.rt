//! Standard output.
ghost use Rattle.std.specs.Prelude.{◌≡◌, [], IfOk};
ghost use Rattle.std.specs.Io.Buffered.{writer_buffer, writer_inner};
ghost use Rattle.scram_io.specs.Real.{SinkSeen, real_sink};

use super::recorded::Recorded;
use super::sink::{Sink, SinkFault};
use super::streams::write_whole;
use scram_types::NoMemory;
use std::alloc::Global;
use std::io;
use std::io::{BufWriter, Print, Printer, Write};
use std::marker::Model;

/// The maximum number of bytes that the sink holds back.
const HELD: usize = 65536;

/// Standard output, buffered. The number of bytes that it is sure to take is not known. Contracts see the bytes sent,
/// the bytes held back and the count of faults.
#[derive(Drop)]
pub struct RealSink<'a, R: Print> {
    out: BufWriter<Recorded<Printer<'a, R>>>,
    faults: u64,
}

impl<'a, R: Print> Model for RealSink<'a, R> {
    ghost Value = { SinkSeen };

    ghost view = { λ s. record { sent = (writer_inner s.out).taken.bytes; held = writer_buffer s.out; faults = s.faults } };
}

impl<'a, R: Print> RealSink<'a, R> {
    /// Returns the standard output of this runtime, without puts and faults. Returns an error if there is no memory
    /// for the buffer.
    pub fn new(alloc: Global, rt: &'a R) -> Result<RealSink<'a, R>, NoMemory>
        ensures { IfOk result (λ sink. sink ≡ record { sent = []; held = []; faults = 0 }) }
    {
        match BufWriter::with_capacity(alloc, HELD, Recorded::new(io::writer(rt))) {
            Ok(out) => Ok(RealSink { out, faults: 0 }),
            Err(_) => Err(NoMemory),
        }
    }
}

impl<'a, R: Print> Sink for RealSink<'a, R> {
    ghost state = { real_sink };

    fn put(&mut self, bytes: &[u8]) -> Result<(), SinkFault> {
        let answer = write_whole(&mut self.out, bytes);
        if answer.is_err() {
            self.faults = self.faults.saturating_add(1);
        }
        answer
    }

    fn flush(&mut self) -> Result<(), SinkFault> {
        match self.out.flush() {
            Ok(()) => Ok(()),
            Err(_) => {
                self.faults = self.faults.saturating_add(1);
                Err(SinkFault)
            }
        }
    }

    ghost surely_below = { λ sink. tt };
}
