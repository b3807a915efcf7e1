//! The state of the whole system between frames.

ghost use Rattle.std.specs.Prelude.{◌≡◌, ◌-◌, ◌^◌, ◌<◌, length};
ghost use Rattle.scram_types.specs.Eights.{eight};
ghost use Rattle.frame_model.specs.Frames.{sys_of};
ghost use Rattle.frame_model.specs.States.{start_area_of, start_keeper_of, start_state};

use app_model::start_area;
use scram_types::{AppId, Area, KMode, ProcId, Spec, World};

/// The world before frame 0: an altitude of 5,000 feet, in level flight to the east, with the wings level.
pub const START_WORLD: World = World {
    alt: 5_000,
    climb: 0,
    heading: 900,
    bank: 0,
};

/// The state before frame `frame`. `mode` is the mode of the preceding frame, or the stable mode of the start
/// configuration before frame 0. `keepers` contains for each application the processor whose image contains its area.
/// `up` contains the processors that were up and had not halted by the end of the preceding frame, as bits. `settled`
/// is `true` if the preceding frame was past the phases of a reconfiguration and its row ran the target.
#[derive(Clone, Copy)]
pub struct Sys {
    pub frame: u32,
    pub mode: KMode,
    pub areas: [Area; 8],
    pub keepers: [Option<ProcId>; 8],
    pub world: World,
    pub up: u8,
    pub settled: bool,
}

impl Sys {
    /// Returns the state before frame 0. Every processor is up. An application that is on in the start configuration
    /// has its start area, and its keeper is the processor of its place. The other applications have zeros and no
    /// keeper.
    pub fn start(spec: &Spec) -> Sys
        ensures { result ≡ sys_of 0 (2 ^ length spec.now.procs - 1) (start_state spec.now) }
    {
        Sys {
            frame: 0,
            mode: KMode::Stable(spec.start),
            areas: start_areas(spec),
            keepers: start_keepers(spec),
            world: START_WORLD,
            up: all_processors(spec),
            settled: false,
        }
    }
}

fn all_processors(spec: &Spec) -> u8
    ensures { result ≡ 2 ^ length spec.now.procs - 1 }
{
    ((1u16 << spec.procs.items().len()) - 1) as u8
}

fn start_areas(spec: &Spec) -> [Area; 8]
    ensures { result ≡ eight (start_area_of spec.now) }
{
    [
        start_area_in(spec, 0),
        start_area_in(spec, 1),
        start_area_in(spec, 2),
        start_area_in(spec, 3),
        start_area_in(spec, 4),
        start_area_in(spec, 5),
        start_area_in(spec, 6),
        start_area_in(spec, 7),
    ]
}

fn start_area_in(spec: &Spec, a: u8) -> Area
    ensures { result ≡ start_area_of spec.now a }
{
    match spec.place_of(spec.start, AppId(a)) {
        Some(_) => start_area(spec.kind_of_app(AppId(a))),
        None => [0; 8],
    }
}

fn start_keepers(spec: &Spec) -> [Option<ProcId>; 8]
    ensures { result ≡ eight (start_keeper_of spec.now) }
{
    [
        start_keeper(spec, 0),
        start_keeper(spec, 1),
        start_keeper(spec, 2),
        start_keeper(spec, 3),
        start_keeper(spec, 4),
        start_keeper(spec, 5),
        start_keeper(spec, 6),
        start_keeper(spec, 7),
    ]
}

fn start_keeper(spec: &Spec, a: u8) -> Option<ProcId>
    ensures { result ≡ start_keeper_of spec.now a }
{
    spec.place_of(spec.start, AppId(a)).map(|place| place.proc)
}
