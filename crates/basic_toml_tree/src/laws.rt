//! Laws of what a section list comes to, each the contract of a function that does nothing.
ghost use Rattle.basic_toml_tree.specs.Stands.{SlicesAreForetold};
ghost use Rattle.basic_toml_tree.specs.FirstStop.{SectionsFaultIsOne};
ghost use Rattle.basic_toml_tree.specs.Statements.{EveryNodeIsForetold, EveryNodeOfAListIsForetold};

/// A section list that has no tree has one error.
#[tactic(auto, using(crate::proofs::SectionsFaultIsOne::sections_fault_is_one))]
pub fn sections_fault_is_one()
    ensures { SectionsFaultIsOne }
{}

/// Wherever the document of a text has data, its section list foretells a node: its type name, its offsets and its key
/// path, and whether it is a string that asks for no copy. So it is of a list that a caller made. And a node of a tree
/// is a slice of the text exactly where the section list foretells such a string.
#[tactic(auto, using(crate::proofs::Foretold::EveryNode::every_node_of_a_list))]
pub fn every_node_is_foretold()
    ensures text { EveryNodeIsForetold }
    ensures list { EveryNodeOfAListIsForetold }
    ensures slices { SlicesAreForetold }
{}
