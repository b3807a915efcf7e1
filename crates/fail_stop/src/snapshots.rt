//! Snapshots, and the drafts that processors make of them.

use bank_words::KernelImage;
use scram_types::Image;

/// The view that a processor has in a frame: the kernel image of the frame, and the image of each processor at the
/// start of the frame. Entries past the last processor are arbitrary.
#[derive(Clone, Copy)]
pub struct Snapshot {
    pub kernel: KernelImage,
    pub images: [Image; 8],
}

/// A frame, and the image that a processor stores in it.
#[derive(Clone, Copy)]
pub struct Draft {
    pub frame: u32,
    pub image: Image,
}
