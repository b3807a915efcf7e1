//! Theorems about histories. Each function states a theorem by its contract and does nothing.

ghost use Rattle.event_core.specs.Counts.{HistoriesCountFrames};

/// States how the kernel's frame and the number of frames that have ended follow from the history. The number of the
/// kernel's frame is the number of releases. The number of frames that have ended is the number of notes divided by
/// the number of processors.
pub fn histories_count_frames()
    ensures { HistoriesCountFrames }
{}
