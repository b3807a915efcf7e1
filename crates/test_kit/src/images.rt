//! Printing images.

use frame_model::sights::slot_in;
use scram_types::{Area, Image, Spec};
use std::io;
use std::rt::HostRuntime;

/// Prints the image of processor `proc`, which is below 8. There is a line for the area of each application.
///
/// # Errors
///
/// Returns an error if a line cannot be printed.
pub fn print_image(rt: &HostRuntime, spec: &Spec, proc: u8, image: &Image) -> io::Result<()> {
    for (a, app) in spec.apps.items().iter().enumerate() {
        if a < 8 {
            print!(rt; "p{proc} {}", app.name)?;
            print_area(rt, &slot_in(image, a as u8))?;
        }
    }
    Ok(())
}

fn print_area(rt: &HostRuntime, area: &Area) -> io::Result<()> {
    for word in area {
        print!(rt; " {word}")?;
    }
    println!(rt; "")
}
