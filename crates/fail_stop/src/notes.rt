//! The condition under which the kernel may note a processor.

ghost use Rattle.std.specs.Prelude.{◌≡◌, ℕ};
ghost use Rattle.fail_stop.specs.Events.{may_note};
ghost use Rattle.fail_stop.specs.Flights.{Flight, back_by};

/// Returns `true` if the kernel may note a processor in frame `frame`. `restart` is the frame of the processor's
/// restart, if any, and `end` is its end word. The processor must be done with the frame, or must have halted without
/// a restart from then up to and including the frame.
pub fn may_note(restart: Option<u32>, frame: u32, end: u64) -> bool
    ensures { (m : Flight) (p : ℕ) → m.restart p ≡ restart → result ≡ may_note m p frame end }
{
    end == 2 * (u64::from(frame) + 1) || end % 2 == 1 && !back_by(restart, end / 2, frame)
}

fn back_by(restart: Option<u32>, halted: u64, frame: u32) -> bool
    ensures { result ≡ back_by restart halted frame }
{
    match restart {
        Some(restart) => halted < u64::from(restart) && restart <= frame,
        None => false,
    }
}
