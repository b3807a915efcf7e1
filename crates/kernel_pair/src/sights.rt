//! The snapshot of a processor that makes a frame, and the words that a unit has noted.

ghost use Rattle.std.specs.Prelude.{◌≡◌, ℕ, ◌<◌, length, [], pos, slice_index_or};
ghost use Rattle.scram_types.specs.Specification.{IsSpec};
ghost use Rattle.bank_words.specs.Marks.{pick};
ghost use Rattle.fault_script.specs.Fits.{Fits};
ghost use Rattle.frame_model.specs.Flights.{image_in};
ghost use Rattle.fail_stop.specs.Drafts.{IsSnapshot};
ghost use Rattle.fail_stop.specs.Flights.{word_in};
ghost use Rattle.fail_stop.specs.ScriptFlights.{image_words};
ghost use Rattle.kernel_pair.specs.Laws.{FindsBy};
ghost use Rattle.kernel_pair.specs.States.{blank_unit, pair_of, word_decoded, word_seen};

use crate::processors::ProcessorState;
use crate::states::PairState;
use bank_words::{decode, encode, kernel_decode, pick};
use fail_stop::Snapshot;
use fail_stop::law::kernel_images_come_back;
use scram_types::{Image, Script, Spec};

/// Returns the snapshot of a processor that makes frame `frame` by the words of unit `u`.
pub(crate) fn snapshot(
    spec: &Spec,
    script: &Script,
    state: &PairState,
    u: u8,
    frame: u32,
) -> Snapshot
    requires facts { IsSpec spec.now }
    requires fits { Fits spec.now script.now }
    requires u { u < 2 }
    requires finds { FindsBy spec.now script.now (pair_of state.now) u frame }
    ensures { IsSnapshot spec.now script.now frame result }
{
    kernel_images_come_back();
    let _script = script;
    Snapshot {
        kernel: kernel_decode(&words_of(state, u)),
        images: images_picked(spec, &state.procs, frame),
    }
}

// Returns the kernel words of unit `u`.
fn words_of(state: &PairState, u: u8) -> [u64; 20]
    requires { u < 2 }
    ensures words { result ≡ (slice_index_or state.now.units u blank_unit).words }
    ensures long { length result ≡ 20 }
{
    copied(&state.units[usize::from(u)].words)
}

fn copied(words: &[u64; 20]) -> [u64; 20]
    ensures words { result ≡ words.now }
    ensures long { length result ≡ 20 }
{
    *words
}

// Returns, for each processor, the image that a reader in frame `frame` finds.
fn images_picked(spec: &Spec, procs: &[ProcessorState; 8], frame: u32) -> [Image; 8]
    ensures words { (q : ℕ) → q < 8 → (i : ℕ) → i < 64 → slice_index_or (image_in result q) i (pos 0) ≡ word_seen spec.now procs.now q frame i }
    ensures long { (q : ℕ) → q < 8 → length (image_in result q) ≡ 64 }
{
    [
        image_picked(spec, procs, 0, frame),
        image_picked(spec, procs, 1, frame),
        image_picked(spec, procs, 2, frame),
        image_picked(spec, procs, 3, frame),
        image_picked(spec, procs, 4, frame),
        image_picked(spec, procs, 5, frame),
        image_picked(spec, procs, 6, frame),
        image_picked(spec, procs, 7, frame),
    ]
}

fn image_picked(spec: &Spec, procs: &[ProcessorState; 8], q: usize, frame: u32) -> Image
    requires { q < 8 }
    ensures words { (i : ℕ) → i < 64 → slice_index_or result i (pos 0) ≡ word_seen spec.now procs.now q frame i }
    ensures long { length result ≡ 64 }
{
    let y = &procs[q];
    image_decoded(spec, &y.banks[usize::from(pick(y.mark, frame))])
}

/// Returns the images that `images`, the image words that a unit has noted, encode.
pub(crate) fn images_decoded(spec: &Spec, images: &[[u64; 64]; 8]) -> [Image; 8]
    ensures words { (p : ℕ) → p < 8 → (i : ℕ) → i < 64
        → slice_index_or (image_in result p) i (pos 0) ≡ word_decoded spec.now (slice_index_or images.now p []) i }
    ensures long { (p : ℕ) → p < 8 → length (image_in result p) ≡ 64 }
{
    [
        image_decoded(spec, &images[0]),
        image_decoded(spec, &images[1]),
        image_decoded(spec, &images[2]),
        image_decoded(spec, &images[3]),
        image_decoded(spec, &images[4]),
        image_decoded(spec, &images[5]),
        image_decoded(spec, &images[6]),
        image_decoded(spec, &images[7]),
    ]
}

// Returns the image that `words` encodes.
fn image_decoded(spec: &Spec, words: &[u64; 64]) -> Image
    ensures words { (i : ℕ) → i < 64 → slice_index_or result i (pos 0) ≡ word_decoded spec.now words.now i }
    ensures long { length result ≡ 64 }
{
    let mut image = [0; 64];
    for i in 0..8 * spec.apps.items().len() {
        image[i] = decode(words[i]);
    }
    image
}

/// Returns the words that encode an image.
pub(crate) fn image_encoded(image: &Image) -> [u64; 64]
    ensures { (i : ℕ) → slice_index_or result i 0 ≡ word_in (image_words image.now) i }
{
    let mut words = [0; 64];
    for i in 0..64 {
        words[i] = encode(image[i]);
    }
    words
}
