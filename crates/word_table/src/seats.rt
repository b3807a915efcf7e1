//! The seats of actors. A seat lets one actor make steps on the words, and records the actor's place.

ghost use Rattle.std.specs.Prelude.{◌≡◌, [], ◌∷◌, true};
ghost use Rattle.word_table.specs.Actors.{actor_at, place_at};
ghost use Rattle.word_table.specs.declared.actors.Actor.TheVariants.{Kernel};

use crate::actors::View;
use scram_types::ProcId;

/// The seat of a processor.
#[derive(Drop)]
pub struct Seat {
    pub(crate) proc: ProcId,
    pub(crate) frame: u32,
    pub(crate) step: u32,
    pub(crate) halted: bool,
    pub(crate) inner: atomic_table::Seat<(), View>,
    ghost alone: { inner.me.0.actors ≡ actor_at proc.0 (place_at frame step halted) ∷ [] },
    ghost empty: { inner.me.1 ≡ [] },
    ghost still: { halted ≡ true → step ≡ 0 },
}

/// The seat of the kernel.
#[derive(Drop)]
pub struct KSeat {
    pub(crate) frame: u32,
    pub(crate) step: u32,
    pub(crate) inner: atomic_table::Seat<(), View>,
    ghost alone: { inner.me.0.actors ≡ Kernel frame step ∷ [] },
    ghost empty: { inner.me.1 ≡ [] },
}

impl Seat {
    ghost use Rattle.fail_stop.specs.Events.{frame_of};
    ghost use Rattle.fail_stop.specs.Events.{is_halted};
    ghost use Rattle.word_table.specs.Actors.{steps_of};
    ghost use Rattle.word_table.specs.Tables.{seat_place, proc_of};

    /// Returns the number of the seat's processor.
    pub fn proc(&self) -> ProcId
        ensures { result.0 ≡ proc_of self.now }
    {
        self.proc
    }

    /// Returns the processor's current frame, or the frame in which it halted.
    pub fn frame(&self) -> u32
        ensures { result ≡ frame_of (seat_place self.now) }
    {
        self.frame
    }

    /// Returns the number of steps that the processor has made in its frame, or 0 if the processor has halted.
    pub fn steps(&self) -> u32
        ensures { result ≡ steps_of (seat_place self.now) }
    {
        self.step
    }

    /// Returns `true` if the processor has halted.
    pub fn halted(&self) -> bool
        ensures { result ≡ is_halted (seat_place self.now) }
    {
        self.halted
    }
}

impl KSeat {
    ghost use Rattle.word_table.specs.Tables.{kernel_frame, kernel_steps};

    /// Returns the kernel's current frame.
    pub fn frame(&self) -> u32
        ensures { result ≡ kernel_frame self.now }
    {
        self.frame
    }

    /// Returns the number of steps that the kernel has made in its frame.
    pub fn steps(&self) -> u32
        ensures { result ≡ kernel_steps self.now }
    {
        self.step
    }
}
