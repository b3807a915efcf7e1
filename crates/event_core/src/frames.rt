//! The end of a frame.

ghost use Rattle.std.specs.Prelude.{◌≡◌, ◌<◌, ◌+◌, length};
ghost use Rattle.scram_types.specs.Specification.{IsSpec};
ghost use Rattle.fault_script.specs.Fits.{Fits};
ghost use Rattle.fail_stop.specs.Kept.{Kept};
ghost use Rattle.fail_stop.specs.Listed.{stored_in, word_index_count};
ghost use Rattle.fail_stop.specs.ScriptFlights.{flight_of};
ghost use Rattle.scram_kernel.specs.Kernels.{kernel_after};
ghost use Rattle.event_core.specs.Places.{machine_places};

use crate::places::Places;
use crate::reads::{images_read, marks_read};
use fail_stop::law::notes_fix;
use scram_kernel::Kernel;
use scram_types::{Script, Spec};

/// Ends the kernel's frame, in which the kernel must have noted all processors. `kernel` becomes the kernel after
/// that frame.
pub(crate) fn end_frame(
    spec: &Spec,
    script: &Script,
    places: &Places,
    stored: &[u64],
    kernel: &mut Kernel,
)
    requires facts { IsSpec spec.now }
    requires fits { Fits spec.now script.now }
    requires stored { length stored.now ≡ word_index_count }
    requires kept { Kept (flight_of spec.now script.now) (machine_places places.now) (stored_in stored.now) }
    requires noted { places.now.step ≡ length spec.now.procs }
    requires frame { places.now.frame < script.now.frames }
    requires kernel { kernel.old ≡ kernel_after spec.now script.now places.now.frame }
    ensures kernel { kernel.new ≡ kernel_after spec.now script.now (places.now.frame + 1) }
{
    notes_fix();
    let marks = marks_read(stored);
    let images = images_read(spec, stored, places.frame + 1);
    kernel.tick(&marks, &images);
}
