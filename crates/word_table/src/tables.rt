//! The table of a mission's words.

ghost use Rattle.word_table.specs.Keeping.{TableKeeps};

use crate::actors::{View, WordRule};
use crate::rests::Sleepers;
use atomic_table::Table;
use coverage_check::Mission;
use std::alloc::Global;

/// The words of a mission, with the mission's numbers that the steps use. The type has no lifetime, so threads can
/// share it.
#[derive(Drop)]
pub struct WordTable {
    pub(crate) table: Table<(), View, Mission, WordRule, Global>,
    pub(crate) frames: u32,
    pub(crate) procs: u32,
    pub(crate) width: u32,
    pub(crate) restarts: [Option<u32>; 8],
    pub(crate) spins: u32,
    pub(crate) sleepers: Sleepers,
    pub(crate) ghost keeps: { TableKeeps table.shared.key table.shared.table_id frames procs width restarts },
}

impl WordTable {
    ghost use Rattle.std.specs.Prelude.{◌≡◌};

    /// Sets how many times a wait spins before it parks. The default is 0.
    pub fn set_spins(&mut self, spins: u32)
        ensures { self.new.table ≡ self.old.table }
    {
        self.spins = spins;
    }
}
