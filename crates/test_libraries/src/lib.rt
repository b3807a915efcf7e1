//! Tests of the crates on which the documents are built. The tests are in a separate crate, since a crate that has
//! tests is proved twice.
#![tactic(auto)]

#[cfg(test)]
mod applications;
#[cfg(test)]
mod boxes;
#[cfg(test)]
mod events;
#[cfg(test)]
mod images;
#[cfg(test)]
mod marks;
#[cfg(test)]
mod numbers;
#[cfg(test)]
mod outside;
#[cfg(test)]
mod ranks;
