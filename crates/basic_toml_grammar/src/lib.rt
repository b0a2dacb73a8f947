//! What a TOML text means: its section list by the grammar, where nothing of it clashes, and the tree of its document.
//! The crates that read (`basic_toml_explain`, `basic_toml_read`, `basic_toml_tree`) go by it.
//!
//! The definitions stand in `specs/`, in the order of `specs/Lib.antt`; nothing here reads a text. `laws` says what
//! makes them believable. `Reader`, `DeepStops`, `Placed`, `Marks`, `Standing`, `Entering`, `Stops`, `Trie` and
//! `TrieStops` are forms that only proofs go by: skip them, and `NumberFaults`, which retraces how a number is read; its
//! offsets are carried by tests.
#![tactic(auto)]

pub mod laws;
