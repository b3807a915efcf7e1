//! The end of a frame in the log of a unit.

ghost use Rattle.std.specs.Prelude.{◌≡◌, ◌<◌, ◌≤◌, length};
ghost use Rattle.scram_kernel.specs.Kernels.{kernel_after};
ghost use Rattle.kernel_pair.specs.Cores.{IsKernelOf};
ghost use Rattle.kernel_pair.specs.Machines.{unit_in};

use crate::machines::PairMachine;
use scram_kernel::Kernel;

/// Ends the frame in `kernel`, the kernel of unit `u`, if the note that the unit has just made was the last one of
/// the frame.
pub(crate) fn end_frame(machine: &PairMachine, u: u8, kernel: &mut Kernel)
    requires u { u < 2 }
    requires steps { (unit_in machine.now u).step ≤ length machine.now.spec.procs }
    requires frame { (unit_in machine.now u).frame < machine.now.script.frames }
    requires kernel { kernel.old ≡ kernel_after machine.now.spec machine.now.script (unit_in machine.now u).frame }
    ensures { IsKernelOf machine.now u kernel.new }
{
    if machine.has_noted_all(u) {
        kernel.tick(&machine.marks(u), &machine.images(u));
    }
}
