//! Files in memory.
ghost use Rattle.std.specs.Prelude.{◌≡◌, ◌≤◌, ◌↔◌, [], IfOk, IsErrOf, None, if◌then◌else◌};
ghost use Rattle.std.specs.Option.{option_map};
ghost use Rattle.std.proofs.Common.{rules};
ghost use Rattle.scram_io.specs.Outside.{file_at};
ghost use Rattle.scram_io.specs.Memory.{FilesHeld, after_read, files_state, found_by, read_of, unread_files};
ghost use Rattle.scram_io.specs.Entries.{entries_of};

use super::files::{Files, ReadFault};
use super::listed::is_listed_call;
use super::notes::NotedReads;
use std::alloc::Global;
use std::marker::Model;

/// Files in memory, for tests and for callers that have the bytes already.
///
/// Contracts see the history, the map, the numbers of the reads that are to fail, the number of reads and the number
/// of faults. Each call of `read` is a read, numbered from 0. Neither number rises past `u64::MAX`, which is above
/// every number that can be listed.
pub struct MemFiles {
    files: Vec<(String, Vec<u8>)>,
    failing: Vec<u32>,
    reads: u64,
    faults: u64,
    history: NotedReads,
}

// A derived drop is laid out in the proof of each function that drops the value, and this one is a call.
impl Drop for MemFiles {
    fn drop(self) {
        let MemFiles {
            files: _,
            failing: _,
            reads: _,
            faults: _,
            history: _,
        } = self;
    }
}

impl Model for MemFiles {
    ghost Value = { FilesHeld };

    ghost view = { λ s. record { history = s.history.reads; map = entries_of s.files.items; failing = s.failing.items; reads = s.reads; faults = s.faults } };
}

impl MemFiles {
    /// Creates files with these names and bytes. The first of two entries with the same name counts. The reads whose
    /// numbers are in `failing` fail.
    pub fn new(files: Vec<(String, Vec<u8>)>, failing: Vec<u32>) -> MemFiles
        ensures { result ≡ unread_files (entries_of files.items) failing.items }
    {
        MemFiles {
            files,
            failing,
            reads: 0,
            faults: 0,
            history: NotedReads::new(),
        }
    }
}

impl Files for MemFiles {
    ghost state = { files_state };

    /// Returns the bytes of the file `name`.
    ///
    /// # Errors
    ///
    /// Returns `Failed` exactly if the read's number is listed or no file has the name, and only then raises the
    /// count of faults. Otherwise returns `TooLong` exactly if the file has more than `limit` bytes, and `NoMemory`
    /// if memory runs out.
    fn read(&mut self, alloc: Global, name: &str, limit: usize) -> Result<Vec<u8>, ReadFault>
        ensures after { ¬ IsErrOf result ReadFault.NoMemory → self.new ≡ after_read self.old name.now (found_by self.old name.now) }
        ensures whole { IfOk result (λ bytes. read_of self.old name.now limit ≡ Ok bytes.items) }
        ensures failed { IsErrOf result ReadFault.Failed ↔ (read_of self.old name.now limit ≡ Err ReadFault.Failed) }
        ensures too_long { IsErrOf result ReadFault.TooLong ↔ (read_of self.old name.now limit ≡ Err ReadFault.TooLong) }
        ensures no_memory { IsErrOf result ReadFault.NoMemory → self.new ≡ after_read self.old name.now [] }
        ensures count { self.old.faults ≤ self.new.faults }
    {
        let listed = is_listed_call(&self.failing, self.reads);
        self.reads = self.reads.saturating_add(1);
        let Some(bytes) = find_unless(listed, &self.files, name) else {
            self.faults = self.faults.saturating_add(1);
            return Err(ReadFault::Failed);
        };
        if bytes.len() > limit {
            self.history.note(name.as_bytes(), bytes);
            return Err(ReadFault::TooLong);
        }
        let copy = bytes.to_vec(alloc)?;
        self.history.note(name.as_bytes(), &copy);
        Ok(copy)
    }

    ghost steady_below = { λ held. Prim.search rules };
}

/// Returns the bytes of the first entry with this name, or `None` if `listed` is `true` or there is no such entry.
fn find_unless<'a>(listed: bool, files: &'a [(String, Vec<u8>)], name: &str) -> Option<&'a [u8]>
    ensures { option_map (λ bytes. bytes.now) result ≡ (if listed then None else file_at name.now (entries_of files.now)) }
{
    if listed { None } else { find_file(files, name) }
}

/// Returns the bytes of the first entry with this name, or `None` if there is no such entry.
fn find_file<'a>(files: &'a [(String, Vec<u8>)], name: &str) -> Option<&'a [u8]>
    ensures { option_map (λ bytes. bytes.now) result ≡ file_at name.now (entries_of files.now) }
{
    for entry in files {
        if entry.0.as_str() == name {
            return Some(entry.1.as_slice());
        }
    }
    None
}
