//! Numbers as words of storage.

ghost use Rattle.std.specs.Prelude.{◌≡◌, ◌*◌, length};
ghost use Rattle.bank_words.specs.Numbers.{decode, encode};

use scram_types::Spec;

/// Returns the number of words of a processor's image: eight for each application.
pub fn words(spec: &Spec) -> u32
    ensures { result ≡ 8 * length spec.now.apps }
{
    8 * spec.apps.items().len() as u32
}

/// Returns the word that encodes a number, by two's complement.
pub fn encode(v: i64) -> u64
    ensures word { result ≡ encode v }
    ensures back { decode result ≡ v }
{
    v.cast_unsigned()
}

/// Returns the number that a word encodes, by two's complement.
pub fn decode(w: u64) -> i64
    ensures number { result ≡ decode w }
    ensures back { encode result ≡ w }
{
    w.cast_signed()
}
