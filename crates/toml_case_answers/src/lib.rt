//! What the lines of case files ask for: what a text or a list of calls gives, printed as such a file has it.
#![tactic(auto)]

pub mod answers;
pub mod calls;
pub mod escapes;
mod lists;
pub mod nodes;
mod numbers;
mod own_types;
mod sections_shown;
mod targets;
mod tokens_shown;
