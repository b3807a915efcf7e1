//! The modes of a kind, by their names.

ghost use Rattle.std.specs.Prelude.{◌≡◌, IfOk};
ghost use Rattle.serde_json.specs.View.{view};
ghost use Rattle.kind_table.specs.Names.{mode_names, number_in};
ghost use Rattle.scram_doc.specs.Chain.{ok_map};
ghost use Rattle.spec_reading.specs.Facts.{IsListed};
ghost use Rattle.spec_reading.specs.Modes.{read_kind_mode};

use crate::rule;
use kind_table::mode_named;
use scram_doc::{DocFault, Path, text};
use scram_types::{KindId, Mode};
use serde_json::Value;

/// Reads a mode of a kind from its name.
///
/// # Errors
///
/// Returns an error if the value is not a text, or the kind has no mode of this name.
pub fn read_kind_mode(kind: KindId, v: &Value, at: &Path) -> Result<Mode, DocFault>
    ensures value { ok_map (λ mode. mode.0) result ≡ read_kind_mode kind.0 at.now (view v.now) }
    ensures of_kind { IfOk result (λ mode. IsListed (number_in (mode_names kind.0)) mode.0) }
{
    match mode_named(kind, text(v, at)?) {
        Some(mode) => Ok(mode),
        None => Err(DocFault::new(rule::UNKNOWN_MODE, at)),
    }
}
