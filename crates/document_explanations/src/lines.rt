//! Lines of text of any length.

ghost use Rattle.std.specs.Prelude.{◌≡◌, ◌++◌, [], OnOk, decimal, string_bytes};
ghost use Rattle.std.specs.Fmt.{signed_decimal};

use itoa::Buffer;
use scram_types::NoMemory;
use std::alloc::Global;

/// Lines of text in a buffer that grows.
#[derive(Drop)]
pub struct Lines {
    text: String,
}

impl std::marker::Model for Lines {
    ghost use Rattle.std.specs.Prelude.{List, ℕ, string_bytes};

    ghost Value = { List ℕ };

    ghost view = { λ a. string_bytes a.text };
}

impl Lines {
    /// Creates an empty buffer.
    pub fn new(alloc: Global) -> Lines
        ensures { result ≡ [] }
    {
        Lines {
            text: String::new(alloc),
        }
    }

    /// Appends a text.
    ///
    /// # Errors
    ///
    /// Returns an error if memory runs out.
    pub fn push(&mut self, text: &str) -> Result<(), NoMemory>
        ensures { OnOk result (self.new ≡ self.old ++ text.now) }
    {
        match self.text.push_str(text) {
            Ok(()) => Ok(()),
            Err(_) => Err(NoMemory),
        }
    }

    /// Appends a number in decimal.
    ///
    /// # Errors
    ///
    /// Returns an error if memory runs out.
    pub fn number(&mut self, number: usize) -> Result<(), NoMemory>
        ensures { OnOk result (self.new ≡ self.old ++ decimal number) }
    {
        let mut buffer = Buffer::new();
        self.push(buffer.format(number))
    }

    /// Appends a number in decimal, preceded by `-` if it is negative.
    ///
    /// # Errors
    ///
    /// Returns an error if memory runs out.
    pub fn signed(&mut self, number: &i64) -> Result<(), NoMemory>
        ensures { OnOk result (self.new ≡ self.old ++ signed_decimal number.now) }
    {
        let mut buffer = Buffer::new();
        self.push(buffer.format(*number))
    }

    /// Returns the text in the buffer.
    pub fn into_text(self) -> String
        ensures { string_bytes result ≡ self }
    {
        self.text
    }
}
