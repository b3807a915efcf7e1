//! What an application sees, and the slots of images.

ghost use Rattle.std.specs.Prelude.{◌≡◌, ◌<◌};
ghost use Rattle.scram_types.specs.Eights.{eight};
ghost use Rattle.frame_model.specs.Flights.{slot_in};
ghost use Rattle.frame_model.specs.States.{State, lead_of, seen_by_all, seen_in};

use crate::outcomes::lead_of;
use app_model::Seen;
use scram_types::{Area, Env, Image, Mode, Spec, World};

/// Returns what all applications see in a frame, given the areas and the world before the frame, and the frame's
/// environment.
pub fn seen_by_all(spec: &Spec, areas: &[Area; 8], world: World, env: &Env) -> Seen
    ensures { (state : State) → state.areas ≡ areas.now → state.world ≡ world → result ≡ seen_by_all spec.now env.now state }
{
    Seen {
        mode: Mode(0),
        own: [0; 8],
        lead: leads(spec, areas),
        world,
        factors: env.factors,
        goal: spec.goal,
    }
}

fn leads(spec: &Spec, areas: &[Area; 8]) -> [Area; 8]
    ensures { result ≡ eight (lead_of spec.now areas.now) }
{
    [
        lead_of(spec, areas, 0),
        lead_of(spec, areas, 1),
        lead_of(spec, areas, 2),
        lead_of(spec, areas, 3),
        lead_of(spec, areas, 4),
        lead_of(spec, areas, 5),
        lead_of(spec, areas, 6),
        lead_of(spec, areas, 7),
    ]
}

/// Sets the mode and the own area in `seen` to those of one application.
pub fn show_in(seen: &mut Seen, mode: Mode, own: &Area)
    ensures { seen.new ≡ seen_in seen.old mode own.now }
{
    seen.mode = mode;
    seen.own = *own;
}

/// Returns the slot of application `a` in an image.
pub fn slot_in(image: &Image, a: u8) -> Area
    requires { a < 8 }
    ensures { result ≡ slot_in image.now a }
{
    let first = 8 * usize::from(a);
    [
        image[first],
        image[first + 1],
        image[first + 2],
        image[first + 3],
        image[first + 4],
        image[first + 5],
        image[first + 6],
        image[first + 7],
    ]
}
