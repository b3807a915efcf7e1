//! The effect of an event on the stored words.

ghost use Rattle.std.specs.Prelude.{◌≡◌, suc, ◌<◌, ◌≤◌, ◌-◌, ◌%◌, length};
ghost use Rattle.fail_stop.specs.Events.{MarkWord, frame_of, writes};
ghost use Rattle.fail_stop.specs.Flights.{Flight};
ghost use Rattle.fail_stop.specs.Listed.{list_after, stored_in, word_index_count};
ghost use Rattle.event_core.specs.Places.{CanGoOn, kept_place, machine_place, machine_places};
ghost use Rattle.event_core.specs.Stores.{CanMove, IsInside, IsEventWord};

use crate::nexts::kept_place;
use crate::places::{Place, Places};
use bank_words::{Event, mark_word};
use fail_stop::words::{bank_index, end_index, kernel_index, mark_index};
use scram_types::ProcId;

/// Writes the word that `event` changes, if there is one. For a store of a processor or of the kernel, the new value
/// is `word`.
pub(crate) fn store(stored: &mut Vec<u64>, places: &Places, event: Event, word: u64)
    requires stored { length stored.old.items ≡ word_index_count }
    requires event { IsInside event }
    requires room { CanMove places.now event }
    ensures { (m : Flight) → IsEventWord m (machine_places places.now) event word
        → stored.new.items ≡ list_after stored.old.items (writes m (machine_places places.now) (stored_in stored.old.items) event) }
{
    match event {
        Event::Store(p, i) => {
            let bank = other_bank(stored, p);
            stored[bank_index(p, usize::from(bank)) + usize::from(i)] = word;
        }
        Event::Flip(p) => {
            let bank = other_bank(stored, p);
            let count = frames_through(kept_place(&places.procs, p));
            stored[mark_index(p)] = mark_word(count, bank);
        }
        Event::Done(p) => {
            let count = frames_through(kept_place(&places.procs, p));
            stored[end_index(p)] = 2 * u64::from(count);
        }
        Event::Halt(p) => {
            let frame = frame_of(kept_place(&places.procs, p));
            stored[end_index(p)] = 2 * u64::from(frame) + 1;
        }
        Event::KStore(i) => stored[kernel_index(usize::from(i))] = word,
        Event::Release => stored[0] = u64::from(places.frame) + 2,
        Event::Start(_) => {}
        Event::Look(_, _) => {}
        Event::KNote(_) => {}
    }
}

/// Returns the frame of a place. For a processor that has halted, this is the frame of the halt.
pub(crate) fn frame_of(place: Place) -> u32
    ensures { result ≡ frame_of (machine_place place) }
{
    match place {
        Place::At(frame, _) => frame,
        Place::Halted(frame) => frame,
    }
}

// Returns the number of frames up to and including the frame of a place.
fn frames_through(place: Place) -> u32
    requires { CanGoOn place }
    ensures { result ≡ suc (frame_of (machine_place place)) }
{
    match place {
        Place::At(frame, _) => frame + 1,
        Place::Halted(frame) => frame + 1,
    }
}

// Returns the bank that the mark of processor `p` does not name.
fn other_bank(stored: &[u64], p: ProcId) -> u8
    requires stored { length stored.now ≡ word_index_count }
    requires p { p.0 < 8 }
    ensures bank { result ≡ 1 - stored_in stored.now (MarkWord p.0) % 2 }
    ensures side { result ≤ 1 }
{
    1 - (stored[mark_index(p)] % 2) as u8
}
