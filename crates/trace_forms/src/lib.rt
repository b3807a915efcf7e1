//! The forms that read a finished trace: `props`, which judges it, and `summary` and `columns`, which show it. The output
//! of a form depends only on the bytes of the files that the command's words name.
#![tactic(auto)]

pub mod columns_form;
mod judgements;
mod lines;
pub mod summary_form;

pub use judgements::props_form;
