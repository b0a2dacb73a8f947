//! Types as a caller writes them, and callers that rest on contracts alone: all proved, and tried by `toml_vectors`.
#![tactic(auto)]

pub mod editor;
pub mod forms;
pub mod manifest;
pub mod readers;
pub mod records;
pub mod returned;
pub mod types;
pub mod writers;
