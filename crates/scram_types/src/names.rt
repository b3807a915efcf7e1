//! The names of processors, applications, configurations, factors, values and demands.

ghost use Rattle.std.specs.Prelude.{◌≡◌, ◌≤◌, length, IsTrue};
ghost use Rattle.std.specs.List.{list_all};
ghost use Rattle.scram_types.specs.Names.{is_name, is_name_byte, name_of};

use arrayvec::ArrayString;
use std::fmt;

/// A name: 1 to 16 bytes, each a lower-case letter, a digit or `_`, of which the first is a letter.
#[derive(Drop)]
pub struct Name {
    text: ArrayString<16>,
}

impl std::marker::Model for Name {
    ghost use Rattle.std.specs.Prelude.{List, ℕ, IsTrue};
    ghost use Rattle.scram_types.specs.Names.{is_name};

    ghost Value = { List ℕ };

    ghost view = { λ a. a.text.bytes };

    ghost invariant = { λ a. IsTrue (is_name a.text.bytes) };
}

impl Name {
    /// Returns the name with the spelling `text`, or `None` if `text` is not a valid name.
    pub fn of(text: &str) -> Option<Name>
        ensures { result ≡ name_of text.now }
    {
        if !is_name_text(text.as_bytes()) {
            return None;
        }
        match ArrayString::from(text) {
            Ok(text) => Some(Name { text }),
            Err(_) => None,
        }
    }

    /// Returns the spelling of the name.
    pub fn as_str(&self) -> &str
        ensures text { result.now ≡ self.now }
        ensures short { length result.now ≤ 16 }
        ensures named { IsTrue (is_name result.now) }
    {
        self.text.as_str()
    }

    /// Returns a copy of the name.
    pub fn copy(&self) -> Name
        ensures { result ≡ self.now }
    {
        Name { text: self.text }
    }
}

impl Default for Name {
    /// Returns the name `a`, which fills the unused elements of arrays of names.
    fn default() -> Name {
        let mut text = ArrayString::new();
        text.push('a');
        Name { text }
    }
}

impl fmt::Display for Name {
    ghost use Rattle.std.specs.Prelude.{Some};

    ghost output = { λ n. Some n };

    fn fmt<W: fmt::Write>(&self, f: &mut fmt::Formatter<W>) -> fmt::Result {
        f.pad(self.text.as_str())
    }
}

fn is_name_text(text: &[u8]) -> bool
    ensures { result ≡ is_name text.now }
{
    match text {
        [] => false,
        [first, rest @ ..] => first.is_ascii_lowercase() && is_name_end(rest) && text.len() <= 16,
    }
}

fn is_name_end(bytes: &[u8]) -> bool
    ensures { result ≡ list_all is_name_byte bytes.now }
{
    bytes.iter().all(|&byte| is_byte_of_name(byte))
}

fn is_byte_of_name(byte: u8) -> bool
    ensures { result ≡ is_name_byte byte }
{
    byte.is_ascii_lowercase() || byte.is_ascii_digit() || byte == b'_'
}
