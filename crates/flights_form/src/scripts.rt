//! A file of scripts, one on each line.

ghost use Rattle.std.specs.Prelude.{◌≡◌, ◌<◌, ◌≤◌, ◌∷◌, [], IfOk, IfSome, MatchOption, length};
ghost use Rattle.scram_io.specs.Outside.{StaysSteady};
ghost use Rattle.form_base.specs.Loads.{Loads, UnreadIsFault};
ghost use Rattle.form_base.specs.Refusals.{answer_of};
ghost use Rattle.form_base.specs.mission_files.Documents.{long_script};
ghost use Rattle.trace_text.specs.Pieces.{pieces_of};
ghost use Rattle.flights_form.specs.Scripts.{BreaksNothing, SaysScripts, lines_of};
ghost use Rattle.flights_form.specs.declared.limits.TheConstants.{MAX_SCRIPTS_BYTES};

use crate::limits::MAX_SCRIPTS_BYTES;
use fault_script::{ScriptFault, rule};
use form_base::mission_files::make_script_line;
use form_base::refusals::{Refusal, Refused};
use scram_doc::Path;
use scram_io::{Files, ReadFault};
use scram_types::List;
use std::alloc::Global;
use trace_text::pieces::split_once;

/// Loads the file of scripts `name`.
///
/// # Errors
///
/// Returns a refusal if the file cannot be read or is too long, and the out-of-memory refusal if memory runs out.
pub fn load_scripts<F: Files>(alloc: Global, name: &str, files: &mut F) -> Result<List<u8>, Refusal>
    ensures loads { Loads SaysScripts BreaksNothing MAX_SCRIPTS_BYTES long_script name.now (F.state files.old) (F.state files.new) result }
    ensures few { IfOk result (λ scripts. length scripts ≤ MAX_SCRIPTS_BYTES) }
    ensures steady { StaysSteady (F.state files.old) (F.state files.new) name.now }
    ensures unread { UnreadIsFault (F.state files.old) (F.state files.new) result }
{
    match files.read(alloc, name, MAX_SCRIPTS_BYTES) {
        Ok(bytes) => Ok(List::of(bytes)),
        Err(ReadFault::Failed) => Err(Refusal::unread(alloc, name)),
        Err(ReadFault::TooLong) => Err(too_long()),
        Err(ReadFault::NoMemory) => Err(Refusal::out_of_memory()),
    }
}

// Returns the refusal of a file with more bytes than the limit.
fn too_long() -> Refusal
    ensures { answer_of result ≡ long_script }
{
    let fault = ScriptFault::new(rule::TOO_LONG, &Path::root());
    Refusal::new(Refused::Script, make_script_line(&fault))
}

/// Returns the first line of a file and the bytes of the lines after it, or `None` if there is no line.
pub fn next_line(bytes: &[u8]) -> Option<(&[u8], &[u8])>
    ensures lines { MatchOption result (lines_of bytes.now ≡ []) (λ parts. lines_of bytes.now ≡ parts.0.now ∷ lines_of parts.1.now) }
    ensures shorter { IfSome result (λ parts. length parts.1.now < length bytes.now) }
{
    match split_once(bytes, b'\n') {
        Some(parts) => Some(parts),
        None => last_line(bytes),
    }
}

// Returns the bytes as the last line of a file, with no bytes after the line, or `None` if there are no bytes. The
// bytes must not contain a line feed.
fn last_line(bytes: &[u8]) -> Option<(&[u8], &[u8])>
    requires { pieces_of 10 bytes.now ≡ bytes.now ∷ [] }
    ensures lines { MatchOption result (lines_of bytes.now ≡ []) (λ parts. lines_of bytes.now ≡ parts.0.now ∷ lines_of parts.1.now) }
    ensures shorter { IfSome result (λ parts. length parts.1.now < length bytes.now) }
{
    if bytes.is_empty() {
        None
    } else {
        Some((bytes, &bytes[bytes.len()..]))
    }
}
