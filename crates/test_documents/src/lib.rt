//! Tests of the crates that read, write and generate documents. The tests are in a separate crate, since a crate that
//! has tests is proved twice.
#![tactic(auto)]

#[cfg(test)]
mod missions;
#[cfg(test)]
mod reading;
#[cfg(test)]
mod scripts;
#[cfg(test)]
mod specifications;
