//! The files of the system.
ghost use Rattle.std.specs.Prelude.{◌≡◌, []};
ghost use Rattle.std.proofs.Common.{rules};
ghost use Rattle.scram_io.specs.Real.{FilesSeen, real_files};

use super::files::{Files, ReadFault};
use super::notes::NotedReads;
use super::opens::{System, read_noted};
use std::alloc::Global;
use std::marker::Model;
use std::rt;

/// The files of the system. They are not steady, and their map is not known beforehand. Contracts see the history of
/// reads and the count of faults.
#[derive(Drop)]
pub struct RealFiles<'a, R: rt::Files> {
    rt: &'a R,
    faults: u64,
    reads: NotedReads,
}

impl<'a, R: rt::Files> Model for RealFiles<'a, R> {
    ghost Value = { FilesSeen };

    ghost view = { λ s. record { history = s.reads.reads; faults = s.faults } };
}

impl<'a, R: rt::Files> RealFiles<'a, R> {
    /// Returns the files of this runtime, without reads and faults.
    pub fn new(rt: &'a R) -> RealFiles<'a, R>
        ensures { result ≡ record { history = []; faults = 0 } }
    {
        RealFiles {
            rt,
            faults: 0,
            reads: NotedReads::new(),
        }
    }
}

impl<'a, R: rt::Files> Files for RealFiles<'a, R> {
    ghost state = { real_files };

    // Reads the file in pieces. Each `Err` raises the count of faults.
    fn read(&mut self, alloc: Global, name: &str, limit: usize) -> Result<Vec<u8>, ReadFault> {
        let answer = read_noted(&System { rt: self.rt }, &mut self.reads, alloc, name, limit);
        if answer.is_err() {
            self.faults = self.faults.saturating_add(1);
        }
        answer
    }

    ghost steady_below = { λ files. Prim.search rules };
}
