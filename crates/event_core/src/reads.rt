//! Reads of the stored words.

ghost use Rattle.std.specs.Prelude.{◌≡◌, ℕ, ◌<◌, pos, length, slice_index_or};
ghost use Rattle.scram_types.specs.Eights.{eight};
ghost use Rattle.bank_words.specs.Images.{kernel_encode};
ghost use Rattle.fail_stop.specs.Events.{KernelWord, MarkWord};
ghost use Rattle.fail_stop.specs.Flights.{word_in};
ghost use Rattle.fail_stop.specs.Listed.{stored_in, word_index_count};
ghost use Rattle.frame_model.specs.Flights.{image_in};
ghost use Rattle.event_core.specs.Reads.{kernel_words_stored, word_read};

use bank_words::{KernelImage, decode, kernel_decode, kernel_encode, pick};
use fail_stop::words::{bank_index, mark_index};
use scram_types::{Image, ProcId, Spec};

/// Returns the marks of processors 0 to 7, in order.
pub(crate) fn marks_read(stored: &[u64]) -> [u64; 8]
    requires { length stored.now ≡ word_index_count }
    ensures { result ≡ eight (λ p. stored_in stored.now (MarkWord p)) }
{
    [
        mark_read(stored, 0),
        mark_read(stored, 1),
        mark_read(stored, 2),
        mark_read(stored, 3),
        mark_read(stored, 4),
        mark_read(stored, 5),
        mark_read(stored, 6),
        mark_read(stored, 7),
    ]
}

fn mark_read(stored: &[u64], p: usize) -> u64
    requires stored { length stored.now ≡ word_index_count }
    requires p { p < 8 }
    ensures { result ≡ stored_in stored.now (MarkWord p) }
{
    stored[mark_index(ProcId(p as u8))]
}

/// Returns the image that a reader in frame `frame` finds for processor `p`.
pub(crate) fn image_read(spec: &Spec, stored: &[u64], frame: u32, p: usize) -> Image
    requires stored { length stored.now ≡ word_index_count }
    requires p { p < 8 }
    ensures words { (i : ℕ) → i < 64 → slice_index_or result i (pos 0) ≡ word_read spec.now stored.now frame p i }
    ensures long { length result ≡ 64 }
{
    let picked = usize::from(pick(mark_read(stored, p), frame));
    let bank = bank_index(ProcId(p as u8), picked);
    let mut image = [0; 64];
    for i in 0..8 * spec.apps.items().len() {
        image[i] = decode(stored[bank + i]);
    }
    image
}

/// Returns, for each processor, the image that a reader in frame `frame` finds.
pub(crate) fn images_read(spec: &Spec, stored: &[u64], frame: u32) -> [Image; 8]
    requires { length stored.now ≡ word_index_count }
    ensures words { (p : ℕ) → p < 8 → (i : ℕ) → i < 64 → slice_index_or (image_in result p) i (pos 0) ≡ word_read spec.now stored.now frame p i }
    ensures long { (p : ℕ) → p < 8 → length (image_in result p) ≡ 64 }
{
    [
        image_read(spec, stored, frame, 0),
        image_read(spec, stored, frame, 1),
        image_read(spec, stored, frame, 2),
        image_read(spec, stored, frame, 3),
        image_read(spec, stored, frame, 4),
        image_read(spec, stored, frame, 5),
        image_read(spec, stored, frame, 6),
        image_read(spec, stored, frame, 7),
    ]
}

/// Returns the kernel image that the stored words encode. These words must be the words of `image`.
pub(crate) fn kernel_read(stored: &[u64], image: &KernelImage) -> KernelImage
    requires stored { length stored.now ≡ word_index_count }
    requires held { (i : ℕ) → i < 20 → stored_in stored.now (KernelWord i) ≡ word_in (kernel_encode image.now) i }
    ensures { result ≡ image.now }
{
    let _said = kernel_encode(image);
    kernel_decode(&kernel_words(stored))
}

fn kernel_words(stored: &[u64]) -> [u64; 20]
    requires { length stored.now ≡ word_index_count }
    ensures { result ≡ kernel_words_stored stored.now }
{
    [
        stored[8], stored[9], stored[10], stored[11], stored[12], stored[13], stored[14],
        stored[15], stored[16], stored[17], stored[18], stored[19], stored[20], stored[21],
        stored[22], stored[23], stored[24], stored[25], stored[26], stored[27],
    ]
}
