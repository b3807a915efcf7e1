//! The steps of a processor in a frame.

ghost use Rattle.std.specs.Prelude.{◌≡◌, ◌+◌, ◌<◌, ◌≤◌, ℕ, None, Some, length};
ghost use Rattle.fault_script.specs.Times.{words as words_of};
ghost use Rattle.frame_model.specs.Flights.{image_in};
ghost use Rattle.fail_stop.specs.Events.{At, Halted, frame_of};
ghost use Rattle.word_table.specs.Tables.{IsSeatOf, committed_image, flight_in, mission_in, proc_of, seat_place, tries_of};
ghost use Rattle.word_deck.specs.Frames.{HaltsLate, IsAfter, IsSeatDraft};

use bank_words::encode;
use scram_types::{Image, ProcId};
use word_table::{Seat, WordTable};

/// Looks at each processor. Sets entry `q` of `images` to the image of processor `q` as of the start of the seat's
/// frame. The entries after the last processor are unchanged.
#[tactic(auto, using(crate::proofs::Steps::looks_on, crate::proofs::Noting::set_more))]
pub(crate) fn look_at_all(words: &WordTable, procs: u8, seat: &mut Seat, images: &mut [Image; 8])
    requires seat { IsSeatOf words.now seat.old }
    requires procs { procs ≡ length (mission_in words.now).spec.procs }
    requires few { procs ≤ 8 }
    requires after { IsAfter 1 (seat_place seat.old) }
    ensures seat { IsSeatOf words.now seat.new }
    ensures proc { proc_of seat.new ≡ proc_of seat.old }
    ensures place { seat_place seat.new ≡ At (frame_of (seat_place seat.old)) (procs + 1) }
    ensures tries { tries_of seat.new ≡ tries_of seat.old }
    ensures images { (q : ℕ) → q < procs → image_in images.new q ≡ committed_image words.now q (frame_of (seat_place seat.old)) }
{
    for q in 0..procs {
        words.look(seat, ProcId(q), &mut images[usize::from(q)]);
    }
}

/// Stores the first `count` words of `image`, which must be the draft of the seat's frame.
#[tactic(auto, using(crate::proofs::Steps::stores_on, crate::proofs::Steps::word_drafted))]
pub(crate) fn store_words(words: &WordTable, seat: &mut Seat, image: &Image, count: u32)
    requires seat { IsSeatOf words.now seat.old }
    requires after { IsAfter (length (mission_in words.now).spec.procs + 1) (seat_place seat.old) }
    requires image { IsSeatDraft (mission_in words.now) seat.old image.now }
    requires count { count ≤ words_of (mission_in words.now).spec }
    requires few { count ≤ 64 }
    requires late { HaltsLate (flight_in words.now) (proc_of seat.old) (frame_of (seat_place seat.old)) count }
    ensures seat { IsSeatOf words.now seat.new }
    ensures proc { proc_of seat.new ≡ proc_of seat.old }
    ensures place { seat_place seat.new ≡ At (frame_of (seat_place seat.old)) (length (mission_in words.now).spec.procs + 1 + count) }
    ensures tries { tries_of seat.new ≡ tries_of seat.old }
{
    for i in 0..count {
        words.store(seat, i, encode(image[i as usize]));
    }
}

/// Stores all words of the draft, commits the frame and ends the frame.
#[tactic(auto, using(crate::proofs::Steps::ends_on, crate::proofs::Steps::never_halts, crate::proofs::Steps::ended))]
pub(crate) fn commit(words: &WordTable, seat: &mut Seat, image: &Image, width: u32)
    requires seat { IsSeatOf words.now seat.old }
    requires after { IsAfter (length (mission_in words.now).spec.procs + 1) (seat_place seat.old) }
    requires image { IsSeatDraft (mission_in words.now) seat.old image.now }
    requires width { width ≡ words_of (mission_in words.now).spec }
    requires few { width ≤ 64 }
    requires halt { (flight_in words.now).halt (proc_of seat.old) (frame_of (seat_place seat.old)) ≡ None }
    ensures seat { IsSeatOf words.now seat.new }
    ensures proc { proc_of seat.new ≡ proc_of seat.old }
    ensures place { seat_place seat.new ≡ At (frame_of (seat_place seat.old) + 1) 0 }
    ensures tries { tries_of seat.new ≡ tries_of seat.old }
{
    store_words(words, seat, image, width);
    words.flip(seat);
    words.done(seat);
}

/// Halts the seat's processor after `step` stores. If `step` is greater than `width`, which is the number of words of
/// an image, the processor halts after all stores and the flip.
#[tactic(auto, using(crate::proofs::Steps::halts_on, crate::proofs::Steps::stopped))]
pub(crate) fn halt_after(words: &WordTable, seat: &mut Seat, image: &Image, width: u32, step: u32)
    requires seat { IsSeatOf words.now seat.old }
    requires after { IsAfter (length (mission_in words.now).spec.procs + 1) (seat_place seat.old) }
    requires image { IsSeatDraft (mission_in words.now) seat.old image.now }
    requires width { width ≡ words_of (mission_in words.now).spec }
    requires few { width ≤ 64 }
    requires step { step ≤ width + 1 }
    requires halt { (flight_in words.now).halt (proc_of seat.old) (frame_of (seat_place seat.old)) ≡ Some step }
    ensures seat { IsSeatOf words.now seat.new }
    ensures proc { proc_of seat.new ≡ proc_of seat.old }
    ensures place { seat_place seat.new ≡ Halted (frame_of (seat_place seat.old)) }
    ensures tries { tries_of seat.new ≡ tries_of seat.old }
{
    make_steps(words, seat, image, width, step);
    words.halt(seat);
}

// Makes `step` stores. If `step` is greater than `width`, which is the number of words of an image, makes all stores
// and the flip.
#[tactic(auto, using(crate::proofs::Steps::halts_then, crate::proofs::Steps::flipped))]
fn make_steps(words: &WordTable, seat: &mut Seat, image: &Image, width: u32, step: u32)
    requires seat { IsSeatOf words.now seat.old }
    requires after { IsAfter (length (mission_in words.now).spec.procs + 1) (seat_place seat.old) }
    requires image { IsSeatDraft (mission_in words.now) seat.old image.now }
    requires width { width ≡ words_of (mission_in words.now).spec }
    requires few { width ≤ 64 }
    requires step { step ≤ width + 1 }
    requires halt { (flight_in words.now).halt (proc_of seat.old) (frame_of (seat_place seat.old)) ≡ Some step }
    ensures seat { IsSeatOf words.now seat.new }
    ensures proc { proc_of seat.new ≡ proc_of seat.old }
    ensures place { seat_place seat.new ≡ At (frame_of (seat_place seat.old)) (length (mission_in words.now).spec.procs + 1 + step) }
    ensures tries { tries_of seat.new ≡ tries_of seat.old }
{
    if step <= width {
        return store_words(words, seat, image, step);
    }
    store_words(words, seat, image, width);
    words.flip(seat);
}
