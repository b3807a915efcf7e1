//! A reader of JSON documents by path. Each call returns the value at a path, or the number of the broken rule and
//! the path where the rule is broken, exactly as its definition states. Lists are read element by element, and
//! objects and lists are written as their canonical values.
#![tactic(auto)]

mod document;
mod elements;
mod fault;
mod members;
mod name;
mod objects;
mod path;
pub mod rule;
mod values;
mod writers;

pub use document::parse;
pub use elements::{Elements, Lengths, read_items, read_list};
pub use fault::{DocError, DocFault};
pub use members::{
    exactly_five, exactly_four, exactly_three, exactly_two, field, no_more_than, object, required,
    required_four,
};
pub use name::name_of;
pub use objects::Object;
pub use path::Path;
pub use values::{count_items, int_in, list, text, whole_in};
pub use writers::Writes;
