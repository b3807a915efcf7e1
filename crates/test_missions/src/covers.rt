//! The covers of configurations.

use cube_cover::cover;
use scram_types::{ConfId, Spec};
use std::io;
use std::rt::HostRuntime;
use test_kit::{given, spec_of_text};

/// Prints the cover of each configuration: the outcome of its choices over all environments in scope.
pub fn print_covers(rt: &HostRuntime, spec: &str) -> io::Result<()> {
    let spec = spec_of_text(rt.alloc(), spec)?;
    print_covers_in(rt, &spec)
}

fn print_covers_in(rt: &HostRuntime, spec: &Spec) -> io::Result<()> {
    for (i, conf) in spec.confs.items().iter().enumerate() {
        let cover = given(cover(rt.alloc(), spec, ConfId(i as u8)))?;
        println!(rt; "{}: {cover:?}", conf.name)?;
    }
    Ok(())
}
