//! Laws that join writing and reading, each as the contract of a function that does nothing.

ghost use Rattle.basic_toml_round_trip.specs.Statements.{WrittenIsReadBack, WrittenLevelsFit, WrittenIsReadWithReturns, WrittenIsReadWithByteOrderMark, KeptHasTheLayout, ReadIsWrittenAgain, TreeIsReadBack};
ghost use Rattle.basic_toml_round_trip.specs.Statements.{DocumentIsReadBack, OrderHasSameMaps, OrderHasSameText, ValueIsReadBack};

/// The text of a value means what is kept of it: absent options are left out, and keys stand in order.
#[tactic(auto, using(crate::proofs::LawsHold::read_back))]
pub fn written_is_read_back()
    ensures { WrittenIsReadBack }
{}

/// Nothing in the text stands deeper than the depth limit.
#[tactic(auto, using(crate::proofs::LawsHold::levels_fit))]
pub fn written_levels_fit()
    ensures { WrittenLevelsFit }
{}

/// With CR LF for each line feed the text means the same.
#[tactic(auto, using(crate::proofs::LawsHold::with_returns))]
pub fn written_is_read_with_returns()
    ensures { WrittenIsReadWithReturns }
{}

/// With one U+FEFF in front it means the same.
#[tactic(auto, using(crate::proofs::LawsHold::with_byte_order_mark))]
pub fn written_is_read_with_byte_order_mark()
    ensures { WrittenIsReadWithByteOrderMark }
{}

/// What is kept of a value can be written, and has the same text.
#[tactic(auto, using(crate::proofs::LawsHold::kept_has_the_layout))]
pub fn kept_has_the_layout()
    ensures { KeptHasTheLayout }
{}

/// Writing what is read gives the same bytes again.
#[tactic(auto, using(crate::proofs::LawsHold::written_again))]
pub fn read_is_written_again()
    ensures { ReadIsWrittenAgain }
{}

/// A tree that is written is read back as itself.
#[tactic(auto, using(crate::proofs::LawsHold::tree_read_back))]
pub fn tree_is_read_back()
    ensures { TreeIsReadBack }
{}

/// The text of any table means the table, the rows of each table in it before its sections.
#[tactic(auto, using(crate::proofs::LawsHold::document_read_back))]
pub fn document_is_read_back()
    ensures { DocumentIsReadBack }
{}

/// That order keeps every key with its value.
#[tactic(auto, using(crate::proofs::LawsHold::same_order_maps))]
pub fn order_has_same_maps()
    ensures { OrderHasSameMaps }
{}

/// And it keeps the text: what is read back is written as it was.
#[tactic(auto, using(crate::proofs::LawsHold::same_order_text))]
pub fn order_has_same_text()
    ensures { OrderHasSameText }
{}

/// The text of any value means it, in a row of its own.
#[tactic(auto, using(crate::proofs::LawsHold::value_read_back))]
pub fn value_is_read_back()
    ensures { ValueIsReadBack }
{}
