ghost use Rattle.std.specs.Prelude.{◌≡◌, option_map};
ghost use Rattle.std.specs.List.{list_all};
ghost use Rattle.scram_doc.specs.Names.{is_spelled_name, is_letter_of_name, spelled_name};

use arrayvec::ArrayString;

/// Returns the name that the text spells, or `None` if the text is not a valid name. A name has 1 to 16 bytes: a
/// lower-case letter, followed by lower-case letters, digits or `_`.
pub fn name_of(s: &str) -> Option<ArrayString<16>>
    ensures { option_map (λ n. n.bytes) result ≡ spelled_name s.now }
{
    if is_well_formed(s.as_bytes()) {
        ArrayString::from(s).ok()
    } else {
        None
    }
}

fn is_well_formed(text: &[u8]) -> bool
    ensures { result ≡ is_spelled_name text.now }
{
    match text {
        [] => false,
        [first, rest @ ..] => {
            first.is_ascii_lowercase() && are_allowed(rest) && text.len() <= 16
        }
    }
}

fn are_allowed(bytes: &[u8]) -> bool
    ensures { result ≡ list_all is_letter_of_name bytes.now }
{
    bytes.iter().all(|byte| is_allowed(*byte))
}

fn is_allowed(byte: u8) -> bool
    ensures { result ≡ is_letter_of_name byte }
{
    byte.is_ascii_lowercase() || byte.is_ascii_digit() || byte == b'_'
}
