//! The printing of a text, and the status that results.

ghost use Rattle.form_base.specs.Endings.{IsTaken};
ghost use Rattle.std.specs.Prelude.{◌≡◌};
ghost use Rattle.form_base.specs.Refusals.{answer_of};
ghost use Rattle.form_base.specs.Printing.{status_after};

use crate::refusals::Refusal;
use crate::status::{Status, UNWRITTEN_OUTPUT};
use scram_io::{Sink, SinkFault};

/// Returns the status after a text was written with the result `put`: `code`, or `UNWRITTEN_OUTPUT` if the sink
/// failed.
pub fn status_after(put: Result<(), SinkFault>, code: u8) -> Status
    ensures { result.code ≡ status_after put code }
{
    match put {
        Ok(()) => Status { code },
        Err(SinkFault) => Status {
            code: UNWRITTEN_OUTPUT,
        },
    }
}

/// Writes `text` in one piece as the whole output. Returns the status `code`, or `UNWRITTEN_OUTPUT` if the sink
/// fails.
pub fn print_text<K: Sink>(out: &mut K, code: u8, text: &[u8]) -> Status
    ensures { IsTaken (K.state out.old) (K.state out.new) result.code code text.now }
{
    status_after(out.put(text), code)
}

/// Writes the line of a refusal. Returns the refusal's status, or `UNWRITTEN_OUTPUT` if the sink fails.
pub fn print_refusal<K: Sink>(out: &mut K, refusal: &Refusal) -> Status
    ensures { IsTaken (K.state out.old) (K.state out.new) result.code (answer_of refusal.now).0 (answer_of refusal.now).1 }
{
    print_text(out, refusal.refused.code(), refusal.line())
}
