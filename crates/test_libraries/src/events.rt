//! Tests of encoding events as numbers and of decoding these numbers.

use bank_words::{Event, event_code, event_of};
use scram_types::ProcId;

fn all_kinds(first: u8, second: u8) -> [Event; 9] {
    [
        Event::Start(ProcId(first)),
        Event::Look(ProcId(first), ProcId(second)),
        Event::Store(ProcId(first), second),
        Event::Flip(ProcId(first)),
        Event::Done(ProcId(first)),
        Event::Halt(ProcId(first)),
        Event::KNote(ProcId(first)),
        Event::KStore(second),
        Event::Release,
    ]
}

#[test]
fn events_have_codes_and_codes_events(rt: HostRuntime) {
    for (first, second) in [(0, 0), (0, 255), (255, 0), (255, 255), (7, 63)] {
        for event in all_kinds(first, second) {
            assert_eq!(rt; event_of(event_code(event)), Some(event));
        }
    }
    assert_eq!(rt; event_code(Event::Store(ProcId(7), 63)), 132_927);
    assert_eq!(rt; event_of(132_927), Some(Event::Store(ProcId(7), 63)));
}

#[test]
fn other_numbers_are_no_codes(rt: HostRuntime) {
    for code in [
        256,
        65_535,
        196_864,
        262_143,
        262_400,
        327_936,
        393_472,
        459_008,
        524_287,
        524_289,
        589_824,
        u32::MAX,
    ] {
        assert_eq!(rt; event_of(code), None, "of {code}");
    }
}
