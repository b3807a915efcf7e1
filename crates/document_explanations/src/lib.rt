//! Explanations of the rules that a specification or a script document breaks. An explanation has the text of the
//! rule. For most rules it also has the expected value, the value that was found, or both.
#![tactic(auto)]

pub mod explanations;
mod first_lines;
pub mod found;
pub mod laws;
pub mod lines;
pub mod listed;
mod long_documents;
pub mod objects;
pub mod paths;
pub mod rules;
pub mod scripts;
pub mod specifications;
pub mod values;
pub mod wanted_values;
pub mod wants;
