//! Splitting bytes into pieces: a file into lines, a line into words, a list into names.

ghost use Rattle.std.specs.Prelude.{◌≡◌, ◌<◌, ◌+◌, ◌==◌, ◌∷◌, [], IfSome, MatchOption, bytes_eq, codes, drop, length, option_map, take};
ghost use Rattle.std.specs.List.{position};
ghost use Rattle.trace_text.specs.Pieces.{pieces_of, pieces_left, sides_of};

// Returns the index of the first separator, or `None` if there is none.
fn separator_place(bytes: &[u8], separator: u8) -> Option<usize>
    ensures { result ≡ position (λ b. b == separator) bytes.now }
{
    bytes.iter().position(|byte| *byte == separator)
}

fn before(bytes: &[u8], at: usize) -> &[u8]
    requires { at < length bytes.now }
    ensures { result.now ≡ take at bytes.now }
{
    &bytes[..at]
}

fn behind(bytes: &[u8], at: usize) -> &[u8]
    requires { at < length bytes.now }
    ensures value { result.now ≡ drop (at + 1) bytes.now }
    ensures shorter { length result.now < length bytes.now }
{
    &bytes[at + 1..]
}

/// Returns the bytes before and after the first separator, or `None` if there is no separator.
#[tactic(auto, using(crate::proofs::Splitting::no_separator, crate::proofs::Splitting::first_piece, crate::proofs::Splitting::place_below))]
pub fn split_once(bytes: &[u8], separator: u8) -> Option<(&[u8], &[u8])>
    ensures pieces { MatchOption result (pieces_of separator bytes.now ≡ bytes.now ∷ [])
        (λ halves. pieces_of separator bytes.now ≡ halves.0.now ∷ pieces_of separator halves.1.now) }
    ensures shorter { IfSome result (λ halves. length halves.1.now < length bytes.now) }
{
    match separator_place(bytes, separator) {
        Some(at) => Some((before(bytes, at), behind(bytes, at))),
        None => None,
    }
}

/// Returns the first piece of `bytes` and the bytes after its separator. The second value is `None` if there is no
/// separator.
pub fn first_piece(bytes: &[u8], separator: u8) -> (&[u8], Option<&[u8]>)
    ensures pieces { pieces_of separator bytes.now ≡ result.0.now ∷ pieces_left separator (option_map (λ b. b.now) result.1) }
    ensures shorter { IfSome result.1 (λ behind. length behind.now < length bytes.now) }
{
    match split_once(bytes, separator) {
        Some((piece, behind)) => (piece, Some(behind)),
        None => (bytes, None),
    }
}

/// Returns `true` if a word is `-`, which stands for no name or no number.
pub fn is_dash(word: &[u8]) -> bool
    ensures { result ≡ bytes_eq word.now (codes "-") }
{
    word == b"-".as_slice()
}

/// Returns the texts before and after the slash of a word, or `None` if the word does not have exactly one slash.
pub fn slash_sides(word: &[u8]) -> Option<(&[u8], &[u8])>
    ensures { option_map (λ halves. (halves.0.now, halves.1.now)) result ≡ sides_of word.now }
{
    let (left, right) = split_once(word, b'/')?;
    match split_once(right, b'/') {
        Some(_) => None,
        None => Some((left, right)),
    }
}
