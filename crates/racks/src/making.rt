//! Functions that create boxes and a rack of five boxes. No function may create boxes of applications and return them
//! as `App` objects. Therefore `boxed` takes the applications, and `rack_of` takes their boxes. A body that uses
//! `rack!` has two early returns, one for each of these functions, instead of ten.

ghost use Rattle.std.specs.Prelude.{◌≡◌, IfOk};

use app_model::{App, Rack};
use std::alloc::{AllocError, Global};

/// Returns a box for each of five applications, or `Err` if memory runs out.
pub fn boxed<A: App, B: App, C: App, D: App, E: App>(
    alloc: Global,
    apps: (A, B, C, D, E),
) -> Result<(Box<A>, Box<B>, Box<C>, Box<D>, Box<E>), AllocError>
    ensures first { IfOk result (λ boxes. boxes.0.value ≡ apps.0) }
    ensures second { IfOk result (λ boxes. boxes.1.value ≡ apps.1) }
    ensures third { IfOk result (λ boxes. boxes.2.value ≡ apps.2) }
    ensures fourth { IfOk result (λ boxes. boxes.3.value ≡ apps.3) }
    ensures fifth { IfOk result (λ boxes. boxes.4.value ≡ apps.4) }
{
    let (first, second, third, fourth, fifth) = apps;
    Ok((
        Box::new(alloc, first)?,
        Box::new(alloc, second)?,
        Box::new(alloc, third)?,
        Box::new(alloc, fourth)?,
        Box::new(alloc, fifth)?,
    ))
}

/// Returns the rack of these boxes in this order, or `Err` if memory runs out.
pub fn rack_of(alloc: Global, boxes: [Box<dyn App + Send>; 5]) -> Result<Rack, AllocError>
    ensures { IfOk result (λ rack. rack.boxes.items ≡ boxes) }
{
    Ok(Rack {
        boxes: Vec::from_array(alloc, boxes)?,
    })
}
