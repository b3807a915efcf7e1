//! What a processor stores in a frame that it makes, with or without a halt.

ghost use Rattle.std.specs.Prelude.{◌≡◌, ◌≤◌, option_map};
ghost use Rattle.scram_types.specs.declared.scripts.HaltAt.{HaltAt};
ghost use Rattle.fail_stop.specs.Flights.{end_word_after, reaches_mark, stores_by};

use scram_types::HaltAt;

/// Returns `true` if the processor stores its mark in the frame. `width` is the number of words of its image, and
/// `halt` is its halt in the frame, if any.
pub fn reaches_mark(width: u32, halt: Option<HaltAt>) -> bool
    ensures { result ≡ reaches_mark width (option_map (λ (halt : HaltAt). halt.step) halt) }
{
    match halt {
        Some(halt) => width < u32::from(halt.step),
        None => true,
    }
}

/// Returns the end word of the processor after frame `frame`.
pub fn end_word_after(frame: u32, halt: Option<HaltAt>) -> u64
    ensures { result ≡ end_word_after frame (option_map (λ (halt : HaltAt). halt.step) halt) }
{
    match halt {
        Some(_) => 2 * u64::from(frame) + 1,
        None => 2 * (u64::from(frame) + 1),
    }
}

/// Returns the number of words of its image that the processor stores in the frame, at most `width`.
pub fn stores_by(width: u32, halt: Option<HaltAt>) -> u32
    ensures same { result ≡ stores_by width (option_map (λ (halt : HaltAt). halt.step) halt) }
    ensures few { result ≤ width }
{
    match halt {
        Some(halt) => u32::from(halt.step).min(width),
        None => width,
    }
}
