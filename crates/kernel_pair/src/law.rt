//! The laws of pairs. Each function states a law by its contract and has no effect.

ghost use Rattle.kernel_pair.specs.Laws.{PairsHold, PairsKeep};

/// States the facts that hold in each state of each schedule, for any order of events and any halt of one unit. Both
/// units have noted every processor in a frame before either unit releases the next frame, unless one unit has
/// halted. A processor that may make a frame finds the words and the images of that frame. Each unit has noted marks
/// and images of the one-thread trace. At least one unit has not halted. If the pair is over, each unit that has not
/// halted has noted all frames. If the pair is not over, some processor or unit has a next event.
pub fn pairs_hold()
    ensures { PairsHold }
{}

/// States that the invariant `PairKept` holds in each state of each schedule.
pub fn pairs_keep()
    ensures { PairsKeep }
{}
