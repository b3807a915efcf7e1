//! A note of reads as ghost data, which takes no memory. Calls that note reads do nothing at run time.
ghost use Rattle.std.specs.Prelude.{◌≡◌, ◌++◌, [], ◌∷◌, List, ℕ};
ghost use Rattle.std.specs.Borrow.{ftrue};

use std::marker::Model;

/// The names and the bytes of reads, in the order in which they were noted.
#[derive(Drop)]
pub struct NotedReads {
    pub ghost reads: { List (List ℕ × List ℕ) },
}

impl Model for NotedReads {
    ghost also_owns = { λ _. ftrue };
}

impl NotedReads {
    /// Creates a note without reads.
    pub fn new() -> NotedReads
        ensures { result.reads ≡ [] }
    {
        NotedReads {}
    }

    /// Appends a read to the note: the name of a file, and the bytes that were read from it.
    pub fn note(&mut self, _name: &[u8], _bytes: &[u8])
        ensures { self.new.reads ≡ self.old.reads ++ (_name.now, _bytes.now) ∷ [] }
    {}
}
