//! What is written is read back: laws that join what a text means (`basic_toml_grammar`) with what calls write
//! (`basic_toml_emit`, `basic_toml_write`). There is no code here; `basic_toml` promises it of `to_string` and of
//! `round_trip`.
#![tactic(auto)]

pub mod laws;
