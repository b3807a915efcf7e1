ghost use Rattle.std.specs.Prelude.{◌≡◌, ◌+◌, ◌≤◌, ◌<◌, [], length};
ghost use Rattle.scram_doc.specs.Paths.{member_path, item_path, shown};

use arrayvec::ArrayString;
use itoa::Buffer;
use std::fmt;
use std::marker::Model;

/// The path of a value in a document, of at most 64 bytes: `.` and a member name or an index for each level, or `.`
/// alone for the whole document. Contracts see the list of its bytes, which is empty for the whole document.
#[derive(Debug, Drop)]
pub struct Path {
    text: ArrayString<64>,
}

impl Model for Path {
    ghost use Rattle.std.specs.Prelude.{List, ℕ};

    ghost Value = { List ℕ };

    ghost view = { λ p. p.text.bytes };
}

impl Path {
    /// Returns the path of the whole document.
    pub fn root() -> Path
        ensures { result ≡ [] }
    {
        Path {
            text: ArrayString::new(),
        }
    }

    /// Returns a copy of the path.
    pub fn copy(&self) -> Path
        ensures { result ≡ self.now }
    {
        Path { text: self.text }
    }

    /// Returns the path of member `name` of the object at this path. The result must fit the maximum length of a
    /// path.
    pub fn member(&self, name: &str) -> Path
        requires { length self.now + 1 + length name.now ≤ 64 }
        ensures path { result ≡ member_path self.now name.now }
        ensures size { length result ≡ length self.now + 1 + length name.now }
    {
        let mut text = self.text;
        text.push_str(".");
        text.push_str(name);
        Path { text }
    }

    /// Returns the path of the element with index `index` of the list at this path. The index must be below 100,000,
    /// and this path must have at most 58 bytes.
    pub fn item(&self, index: usize) -> Path
        requires index { index < 100000 }
        requires room { length self.now + 6 ≤ 64 }
        ensures path { result ≡ item_path self.now index }
        ensures short { length result ≤ length self.now + 6 }
    {
        let mut buffer = Buffer::new();
        self.member(buffer.format(index))
    }

    /// Returns the path in the form in which it is shown.
    pub fn as_str(&self) -> &str
        ensures text { result.now ≡ shown self.now }
        ensures short { length result.now ≤ 64 }
    {
        let text = self.text.as_str();
        if text.is_empty() { "." } else { text }
    }
}

impl fmt::Display for Path {
    ghost use Rattle.std.specs.Prelude.{Some};
    ghost use Rattle.scram_doc.specs.Paths.{shown};

    ghost output = { λ p. Some (shown p) };

    fn fmt<W: fmt::Write>(&self, f: &mut fmt::Formatter<W>) -> fmt::Result {
        f.pad(self.as_str())
    }
}
