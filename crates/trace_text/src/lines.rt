//! A line of text that is built without allocation.

ghost use Rattle.std.specs.Prelude.{◌≡◌, ◌+◌, ◌≤◌, ◌++◌, [], ℕ, length, decimal};
ghost use Rattle.std.specs.Fmt.{signed_decimal};
ghost use Rattle.scram_types.specs.declared.limits.TheConstants.{MAX_LINE_BYTES};

use arrayvec::ArrayVec;
use itoa::Buffer;
use scram_types::limits::MAX_LINE_BYTES;

/// A line of at most [`MAX_LINE_BYTES`] bytes. No line of a trace is longer.
#[derive(Drop)]
pub struct Line {
    bytes: ArrayVec<u8, MAX_LINE_BYTES>,
}

impl std::marker::Model for Line {
    ghost use Rattle.std.specs.Prelude.{List, ℕ};

    ghost Value = { List ℕ };

    ghost view = { λ a. a.bytes.items };
}

impl Line {
    /// Creates an empty line.
    pub fn new() -> Line
        ensures { result ≡ [] }
    {
        Line {
            bytes: ArrayVec::new(),
        }
    }

    /// Returns the bytes that have been appended so far.
    pub fn as_bytes(&self) -> &[u8]
        ensures { result.now ≡ self.now }
    {
        self.bytes.as_slice()
    }

    /// Appends a text.
    pub fn text(&mut self, text: &[u8])
        requires { length self.old + length text.now ≤ MAX_LINE_BYTES }
        ensures text { self.new ≡ self.old ++ text.now }
        ensures size { length self.new ≡ length self.old + length text.now }
    {
        let _fits = self.bytes.try_extend_from_slice(text);
    }

    /// Appends a number in decimal.
    pub fn number(&mut self, number: u32)
        requires { length self.old + 10 ≤ MAX_LINE_BYTES }
        ensures text { self.new ≡ self.old ++ decimal number }
        ensures short { length self.new ≤ length self.old + 10 }
    {
        let mut buffer = Buffer::new();
        self.text(buffer.format(number).as_bytes());
    }

    /// Appends a signed number in decimal, preceded by `-` if it is negative.
    pub fn signed(&mut self, number: &i64)
        requires { length self.old + 20 ≤ MAX_LINE_BYTES }
        ensures text { self.new ≡ self.old ++ signed_decimal number.now }
        ensures short { length self.new ≤ length self.old + 20 }
    {
        let mut buffer = Buffer::new();
        self.text(buffer.format(*number).as_bytes());
    }
}
