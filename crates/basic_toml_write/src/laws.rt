//! Laws about what calls write, each as the contract of a function that does nothing.

ghost use Rattle.std.specs.Prelude.{List};
ghost use Rattle.basic_toml_emit.specs.Items.{Item};
ghost use Rattle.basic_toml_write.specs.Statements.{SpellsAtMostOne, SpelledComesInOrder, DataIsSpelled, DataIsKept, KeptIsTree, KeptHasSameText, KeptHasSameDepth, RecordsNoIntegerAsFloat};

/// A list of calls spells at most one value. One that spells a value meets no error for the order of its calls, and
/// none for a key that is no text.
#[tactic(auto, using(crate::proofs::LawsHold::spells_at_most_one, crate::proofs::LawsHold::spelled_comes_in_order))]
pub fn spelling_is_unique_and_in_order()
    ensures unique { (is : List Item) → SpellsAtMostOne is }
    ensures in_order { SpelledComesInOrder }
{}

/// The calls of a tree of data spell its written value, and the tree is what that value keeps.
#[tactic(auto, using(crate::proofs::LawsHold::data_is_spelled, crate::proofs::LawsHold::data_is_kept))]
pub fn data_is_spelled_and_kept()
    ensures spelled { DataIsSpelled }
    ensures kept { DataIsKept }
{}

/// What is kept of a value without an unsupported shape is the written value of its tree. What is kept of any value has
/// its text, and its depth.
#[tactic(auto, using(crate::proofs::LawsHold::kept_is_tree, crate::proofs::LawsHold::kept_has_same_text, crate::proofs::LawsHold::kept_has_same_depth))]
pub fn kept_is_tree_with_same_text_and_depth()
    ensures tree { KeptIsTree }
    ensures same_text { KeptHasSameText }
    ensures same_depth { KeptHasSameDepth }
{}

/// No list that a serializer has recorded holds `12` as a float, whose text would be that of the integer.
#[tactic(auto, using(crate::proofs::LawsHold::no_integer_as_float))]
pub fn records_no_integer_as_float()
    ensures { RecordsNoIntegerAsFloat }
{}
