//! Functions that read a whole stream and write a whole buffer, for any kind of stream.
ghost use Rattle.std.specs.Prelude.{◌≡◌, ◌+◌, ◌≤◌, IfOk, IfSome, OnErr, OnOk, length};
ghost use Rattle.std.specs.Io.KnownBytes.{Appends, Consumes};
ghost use Rattle.scram_io.specs.Streams.{AppendsPrefix, ConsumesAtMost};

use super::sink::SinkFault;
use std::alloc::Global;
use std::io;
use std::io::{Read, Write};

/// The maximum number of bytes that one call of `read` asks for.
const PIECE: usize = 4096;

/// Reads a stream to its end, or until more than `limit` bytes were read.
///
/// The function asks for at most `limit + 1` bytes in all. It ends when a read returns no bytes.
///
/// # Errors
///
/// Returns the error of a read that fails, and an error of kind `OutOfMemory` if memory runs out.
pub fn read_past<I: Read>(alloc: Global, input: &mut I, limit: usize) -> io::Result<Vec<u8>>
    ensures whole { IfOk result (λ bytes. length bytes.items ≤ limit → IfSome (I.remaining input.old) (λ all. bytes.items ≡ all)) }
    ensures lost { IfOk result (λ bytes. Consumes (I.remaining input.old) (I.remaining input.new) bytes.items) }
    ensures asked { ConsumesAtMost (I.remaining input.old) (I.remaining input.new) (limit + 1) }
{
    let mut bytes = Vec::new(alloc);
    let mut piece = [0u8; PIECE];
    'turns: while bytes.len() <= limit {
        let want = PIECE.min((limit - bytes.len()).saturating_add(1));
        let count = input.read(&mut piece[..want])?;
        if count == 0 {
            return Ok(bytes);
        }
        bytes.extend_from_slice(&piece[..count])?;
    }
    Ok(bytes)
}

/// Writes all the bytes to a stream, which may hold them back. Returns an error if a write fails or takes no bytes.
pub fn write_whole<O: Write>(output: &mut O, bytes: &[u8]) -> Result<(), SinkFault>
    ensures whole { OnOk result (Appends (O.contents output.old) (O.contents output.new) bytes.now) }
    ensures prefix { OnErr result (AppendsPrefix (O.contents output.old) (O.contents output.new) bytes.now) }
{
    let mut start = 0;
    'turns: while start < bytes.len() {
        match output.write(&bytes[start..]) {
            Ok(0) => return Err(SinkFault),
            Ok(count) => start += count,
            Err(_) => return Err(SinkFault),
        }
    }
    Ok(())
}
