//! Laws: the values of a text have offsets that rise, so no two have the same; and what no header made is found by
//! where it begins and by how many keys lead to it. The offsets are those of the section list (`basic_toml_grammar`).
//! There is no code here.
#![tactic(auto)]

pub mod laws;
