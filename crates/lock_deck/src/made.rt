//! The result of a turn at the lock.

use fail_stop::Snapshot;

/// The result of a processor's turn at the lock: nothing, a start, a move, a snapshot, the end of the processor's
/// frame, or its halt in a frame. Nothing means that no event was next. A move is a look, a store or a flip. A
/// snapshot is returned if a store is next for which the processor has no draft.
#[derive(Clone, Copy)]
pub enum Made {
    Nothing,
    Started,
    Moved,
    Saw(Snapshot),
    Done,
    Halted(u32),
}
