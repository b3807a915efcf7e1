//! The task's law.
#![tactic(auto, unfolding(crate::specs::Tasks::task_ran))]

ghost use Rattle.std.specs.Prelude.{◌≡◌};
ghost use Rattle.app_model.specs.Tasks.{task_ran};

use crate::reads::next_ticks;
use crate::seen::Seen;
use kind_table::kinds::task::KIND;
use scram_types::Area;

/// Returns the task's area after a frame in which it runs. Only its status and its count of frames are used.
pub fn run(seen: &Seen) -> Area
    ensures { result ≡ task_ran seen.now }
{
    [1, 0, 0, 0, 0, 0, next_ticks(KIND, seen), 0]
}
