//! Laws of the texts, the origins and the paths of errors, each the contract of a function that does nothing.
ghost use Rattle.basic_toml_error.specs.Statements.{GoesOnWithLine, OriginsAreOfTheNode, PathsAreOfTheNode};

/// The text of an error of reading begins as `ReadError` prints it, and goes on with its line and its column.
#[tactic(auto, using(crate::proofs::TextsGoOn::goes_on_with_line))]
pub fn text_goes_on_with_line()
    ensures { GoesOnWithLine }
{}

/// In the text of its tree, an error of a type at a node has the origin of what stands at the path of the node.
pub fn origins_are_of_the_node()
    ensures { OriginsAreOfTheNode }
{}

/// In the text of its tree, an error of a type at a node has the path of the node, which goes on to an unknown field by
/// the field's key.
pub fn paths_are_of_the_node()
    ensures { PathsAreOfTheNode }
{}
