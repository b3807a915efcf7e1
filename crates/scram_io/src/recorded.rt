//! A writer that records the bytes written.
ghost use Rattle.std.specs.Borrow.{ftrue};
ghost use Rattle.std.specs.Prelude.{◌≡◌, ◌++◌, [], List, Some, ℕ};
ghost use Rattle.std.specs.Io.{WritesAtMost};
ghost use Rattle.std.specs.Io.KnownBytes.{Keeps, WriteAppends};

use std::io;
use std::io::Write;
use std::marker::Model;

/// Bytes, in the order in which they were noted. They are ghost data, which takes no memory. Only a `Recorded` notes
/// bytes.
#[derive(Drop)]
pub struct NotedBytes {
    pub ghost bytes: { List ℕ },
}

impl Model for NotedBytes {
    ghost also_owns = { λ _. ftrue };
}

impl NotedBytes {
    /// Creates a note without bytes.
    fn new() -> NotedBytes
        ensures { result.bytes ≡ [] }
    {
        NotedBytes {}
    }

    /// Appends bytes to the note.
    fn note(&mut self, _bytes: &[u8])
        ensures { self.new.bytes ≡ self.old.bytes ++ _bytes.now }
    {}
}

/// A writer that notes all the bytes that its writes took. The noted bytes are its `contents`. If the contents of
/// `inner` are known too, each write appends the same bytes to both.
#[derive(Drop)]
pub struct Recorded<W> {
    inner: W,
    taken: NotedBytes,
}

impl<W> Recorded<W> {
    /// Creates a recorder around a writer. No bytes are noted yet.
    pub fn new(inner: W) -> Recorded<W>
        ensures inner { result.inner ≡ inner }
        ensures empty { result.taken.bytes ≡ [] }
    {
        Recorded {
            inner,
            taken: NotedBytes::new(),
        }
    }
}

impl<W: Write> Write for Recorded<W> {
    ghost contents = { λ recorded. Some recorded.taken.bytes };

    fn write(&mut self, buf: &[u8]) -> io::Result<usize>
        ensures bound { WritesAtMost result buf.now }
        ensures bytes { WriteAppends (Some self.old.taken.bytes) (Some self.new.taken.bytes) result buf.now }
        ensures inner { WriteAppends (W.contents self.old.inner) (W.contents self.new.inner) result buf.now }
    {
        let count = self.inner.write(buf)?;
        self.taken.note(&buf[..count]);
        Ok(count)
    }

    fn flush(&mut self) -> io::Result<()>
        ensures bytes { self.new.taken.bytes ≡ self.old.taken.bytes }
        ensures inner { Keeps (W.contents self.old.inner) (W.contents self.new.inner) }
    {
        self.inner.flush()
    }
}
