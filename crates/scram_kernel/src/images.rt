//! The kernel image of a frame.

ghost use Rattle.std.specs.Prelude.{◌≡◌, ◌<◌};
ghost use Rattle.scram_types.specs.declared.limits.TheConstants.{MAX_FRAMES};
ghost use Rattle.scram_kernel.specs.Images.{image_given, image_next};

use bank_words::KernelImage;
use frame_model::{Sys, decide, has_arrived, phase_at};
use scram_types::{Env, ProcId, Row, Spec};

/// Returns the kernel image of the frame that a system is about to fly, given the environment of that frame.
pub(crate) fn image_given(spec: &Spec, sys: &Sys, env: Env) -> KernelImage
    ensures { result ≡ image_given spec.now sys.now env }
{
    let keepers = sys.keepers;
    KernelImage {
        frame: sys.frame,
        mode: decide(spec, sys, &env),
        env,
        keepers,
        world: sys.world,
    }
}

/// Returns the kernel image of the frame after the frame of `row`, given the keepers after `row` and the environment
/// of the image's frame.
pub(crate) fn image_next(
    spec: &Spec,
    row: &Row,
    keepers: [Option<ProcId>; 8],
    env: Env,
) -> KernelImage
    requires { row.now.frame < MAX_FRAMES }
    ensures { result ≡ image_next spec.now row.now keepers env }
{
    let phase = phase_at(spec, &row.mode, row.frame);
    // A decision does not read the areas.
    let sys = Sys {
        frame: row.frame + 1,
        mode: row.mode,
        areas: [[0; 8]; 8],
        keepers,
        world: row.world,
        up: 0,
        settled: has_arrived(spec, row, phase),
    };
    image_given(spec, &sys, env)
}
