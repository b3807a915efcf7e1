//! Events: the steps of a processor or of the kernel, and their codes.

ghost use Rattle.std.specs.Prelude.{◌≡◌, IfSome, Some};
ghost use Rattle.bank_words.specs.Events.{IsEvent, byte_of, event_code, event_of};

use scram_types::ProcId;

/// A step of a processor or of the kernel. A processor starts a frame, looks at a processor, stores a word of its
/// image, flips its mark, finishes the frame, or halts. The kernel notes a processor, stores one of its twenty words,
/// or releases the next frame.
#[derive(Clone, Copy, Debug, PartialEq, Eq)]
pub enum Event {
    Start(ProcId),
    /// The first processor looks at the second.
    Look(ProcId, ProcId),
    /// The processor stores the word with this number.
    Store(ProcId, u8),
    Flip(ProcId),
    Done(ProcId),
    Halt(ProcId),
    KNote(ProcId),
    /// The kernel stores the word with this number.
    KStore(u8),
    Release,
}

/// Returns the code of an event. Different events have different codes.
pub fn event_code(event: Event) -> u32
    ensures code { result ≡ event_code event }
    ensures back { event_of result ≡ Some event }
{
    match event {
        Event::Start(p) => u32::from(p.0),
        Event::Look(p, q) => 65_536 + 256 * u32::from(p.0) + u32::from(q.0),
        Event::Store(p, i) => 131_072 + 256 * u32::from(p.0) + u32::from(i),
        Event::Flip(p) => 196_608 + u32::from(p.0),
        Event::Done(p) => 262_144 + u32::from(p.0),
        Event::Halt(p) => 327_680 + u32::from(p.0),
        Event::KNote(p) => 393_216 + u32::from(p.0),
        Event::KStore(i) => 458_752 + u32::from(i),
        Event::Release => 524_288,
    }
}

/// Returns the event with this code, or `None` if no event has this code.
pub fn event_of(code: u32) -> Option<Event>
    ensures event { result ≡ event_of code }
    ensures code { IfSome result (λ event. event_code event ≡ code) }
    ensures only { (event : Event) → IsEvent event → event_code event ≡ code → result ≡ Some event }
{
    let number = code % 65_536;
    let first = ProcId((number / 256) as u8);
    let second = (number % 256) as u8;
    match code / 65_536 {
        0 => Some(Event::Start(ProcId(byte_of(number)?))),
        1 => Some(Event::Look(first, ProcId(second))),
        2 => Some(Event::Store(first, second)),
        3 => Some(Event::Flip(ProcId(byte_of(number)?))),
        4 => Some(Event::Done(ProcId(byte_of(number)?))),
        5 => Some(Event::Halt(ProcId(byte_of(number)?))),
        6 => Some(Event::KNote(ProcId(byte_of(number)?))),
        7 => Some(Event::KStore(byte_of(number)?)),
        8 if number == 0 => Some(Event::Release),
        _ => None,
    }
}

fn byte_of(number: u32) -> Option<u8>
    ensures { result ≡ byte_of number }
{
    if number < 256 {
        Some(number as u8)
    } else {
        None
    }
}
