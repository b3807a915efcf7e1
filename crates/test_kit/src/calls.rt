//! Counts of the calls of boxes.

use std::alloc::{AllocError, Global};
use std::io;
use std::rt::HostRuntime;
use std::sync::atomic::{AtomicU64, Ordering};

/// The number of calls of each box of a rack, and the number of calls that waited in vain.
#[derive(Drop)]
pub struct Calls {
    /// The number of calls of each box. `kinds[k]` counts the calls of the box of kind `k`.
    pub kinds: [AtomicU64; 5],
    /// The number of calls that waited in vain for a call of another rack.
    pub in_vain: AtomicU64,
}

impl Calls {
    fn new() -> Calls {
        Calls {
            kinds: [
                AtomicU64::new(0),
                AtomicU64::new(0),
                AtomicU64::new(0),
                AtomicU64::new(0),
                AtomicU64::new(0),
            ],
            in_vain: AtomicU64::new(0),
        }
    }

    /// Returns the number of calls of the box of a kind below 5, or 0 for any other kind.
    pub fn of_kind(&self, kind: u8) -> u64 {
        match self.kinds.get(usize::from(kind)) {
            Some(calls) => calls.load(Ordering::SeqCst),
            None => 0,
        }
    }

    /// Returns `true` if any box has been called.
    pub fn any(&self) -> bool {
        let mut any = false;
        for kind in 0..5 {
            if self.of_kind(kind) > 0 {
                any = true;
            }
        }
        any
    }

    fn print(&self, rt: &HostRuntime, whose: &str) -> io::Result<()> {
        print!(rt; "{whose}:")?;
        for kind in 0..5 {
            print!(rt; " {}", self.of_kind(kind))?;
        }
        let in_vain = self.in_vain.load(Ordering::SeqCst);
        println!(rt; ", waited in vain {in_vain} times")
    }
}

/// The counts of the calls of all boxes. Each of the first two processors has counts for its first rack and counts
/// for its spare rack. All other processors share the counts for their first racks, and share the counts for their
/// spare racks. The counts are never freed, so that boxes on any thread can refer to them.
#[derive(Drop)]
pub struct Counters {
    first: &'static Calls,
    second: &'static Calls,
    others: &'static Calls,
    first_spare: &'static Calls,
    second_spare: &'static Calls,
    other_spares: &'static Calls,
}

impl Counters {
    /// Creates counters whose counts are all 0.
    ///
    /// # Errors
    ///
    /// Returns an error if memory runs out.
    pub fn new(alloc: Global) -> Result<Counters, AllocError> {
        Ok(Counters {
            first: Box::leak(Box::new(alloc, Calls::new())?),
            second: Box::leak(Box::new(alloc, Calls::new())?),
            others: Box::leak(Box::new(alloc, Calls::new())?),
            first_spare: Box::leak(Box::new(alloc, Calls::new())?),
            second_spare: Box::leak(Box::new(alloc, Calls::new())?),
            other_spares: Box::leak(Box::new(alloc, Calls::new())?),
        })
    }

    /// Returns the counts for the first rack of processor `proc`. All processors from 2 on share their counts.
    pub fn own(&self, proc: u32) -> &'static Calls {
        match proc {
            0 => self.first,
            1 => self.second,
            _ => self.others,
        }
    }

    /// Returns the counts for the spare rack of processor `proc`. All processors from 2 on share their counts.
    pub fn spare(&self, proc: u32) -> &'static Calls {
        match proc {
            0 => self.first_spare,
            1 => self.second_spare,
            _ => self.other_spares,
        }
    }

    /// Returns the counts for the rack that the boxes of processor `proc` wait for, or `None` if these boxes do not
    /// wait.
    pub fn awaited(&self, proc: u32) -> Option<&'static Calls> {
        match proc {
            0 => Some(self.second),
            1 => Some(self.first),
            _ => None,
        }
    }

    /// Returns the counts for a rack, and for the rack that its boxes wait for. Places 0 to 7 are the first racks of the
    /// processors, and the places from 8 on are their spare racks.
    pub fn of_place(&self, place: u32) -> (&'static Calls, Option<&'static Calls>) {
        if place < 8 {
            (self.own(place), self.awaited(place))
        } else {
            (self.spare(place - 8), None)
        }
    }

    /// Prints all counts.
    pub fn print(&self, rt: &HostRuntime) -> io::Result<()> {
        self.first.print(rt, "first")?;
        self.second.print(rt, "second")?;
        self.others.print(rt, "others")?;
        self.first_spare.print(rt, "spare of the first")?;
        self.second_spare.print(rt, "spare of the second")?;
        self.other_spares.print(rt, "spares of the others")
    }
}
