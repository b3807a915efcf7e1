//! The command with the files of the system and standard output.

ghost use Rattle.std.specs.Prelude.{◌≡◌, [], IfOk, map, string_bytes};
ghost use Rattle.scram_io.specs.Real.{real_files, real_sink};
ghost use Rattle.scram_cli.specs.Answers.{FormAnswers};
ghost use Rattle.scram_cli.specs.Assurance.{AssuresForm};
ghost use Rattle.form_base.specs.Endings.{Ends, IsSent};
ghost use Rattle.scram_cli.specs.Forms.{files_of, form_of};
ghost use Rattle.form_base.specs.declared.status.TheConstants.{ANSWERED};

use crate::command::scram;
use app_model::Boxes;
use form_base::status::Status;
use scram_io::{RealFiles, RealSink};
use scram_types::NoMemory;
use std::alloc::AllocGlobal;
use std::io::Print;
use std::rt;
use std::sync::Wait;
use std::thread::Threads;

/// Answers the words after the program's name, with the files of the system and standard output. Returns the status,
/// the files with the names and bytes that were read, in order, and the output with the bytes that were written.
///
/// The status and the bytes that were written are the answer to the words and to the bytes that were read. If the
/// status is 0, the assurance of the form holds. Nothing is required of the files or the output.
///
/// # Errors
///
/// Returns an error if there is no memory for the bytes that standard output holds back. In this case, nothing was
/// read or printed.
pub fn run_program<'a, R: AllocGlobal + rt::Files + Print + Threads + Wait + Sync>(
    rt: &'a R,
    words: &[String],
    boxes: Boxes,
) -> Result<(Status, RealFiles<'a, R>, RealSink<'a, R>), NoMemory>
    ensures answer { IfOk result (λ ended. Ends (FormAnswers (form_of (map string_bytes words.now))) (files_of (form_of (map string_bytes words.now)))
        (real_files (record { history = []; faults = 0 })) (real_files ended.1)
        (IsSent (real_sink (record { sent = []; held = []; faults = 0 })) (real_sink ended.2) ended.0.code)) }
    ensures assured { IfOk result (λ ended. ended.0.code ≡ ANSWERED → AssuresForm (form_of (map string_bytes words.now)) ended.1.history ended.2.sent) }
{
    let mut files = RealFiles::new(rt);
    let mut out = RealSink::new(rt.alloc(), rt)?;
    let status = scram(rt, words, &mut files, &mut out, boxes);
    Ok((status, files, out))
}
