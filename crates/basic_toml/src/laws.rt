//! Laws of what texts mean and of what calls answer, each the contract of a function that does nothing.
ghost use Rattle.std.specs.Prelude.{◌≡◌, ℕ, List};
ghost use Rattle.basic_toml_tokens.specs.Text.{folded};
ghost use Rattle.basic_toml_value.specs.Data.{Data};
ghost use Rattle.basic_toml_grammar.specs.Document.{IsDocument};
ghost use Rattle.basic_toml_grammar.specs.Faults as read;
ghost use Rattle.basic_toml.specs.Memory.{BlanksAreRead, ReadsWithoutPlace, TreesWithoutPlace, WritesWithoutPlace};
ghost use Rattle.basic_toml.specs.Memory.{RoundTripsWithoutPlace};
ghost use Rattle.basic_toml.specs.OrderReadBack.{RowsFirstIsReadBack};
ghost use Rattle.basic_toml.specs.OneAnswer.{WritesOneAnswer, RoundTripsToOneAnswer, ReadingHasOneTable};
ghost use Rattle.basic_toml.specs.OneAnswer.{ReadingHasOneError};
ghost use Rattle.basic_toml.specs.Reading.{IsTextFault};

pub use basic_toml_error::laws::text_goes_on_with_line;
pub use basic_toml_order::laws::{
    has_same_maps, once_is_enough, only_unwritable_is_refused, ordered_stays, rows_come_first,
    stays_recordable,
};
pub use basic_toml_tree::laws::{every_node_is_foretold, sections_fault_is_one};
use basic_toml_typed::Deserialize;
pub use basic_toml_typed::laws::text_numbers_differ;
use basic_toml_write::Serialize;

/// A text has at most one document.
pub fn texts_have_one_document()
    ensures { (text : List ℕ) (tree other : Data) → IsDocument (folded text) tree → IsDocument (folded text) other
        → tree ≡ other }
{}

/// A text that has a document allows no error: so where it has one, only want of memory keeps a type from it, or the type
/// itself.
pub fn refused_texts_have_no_document()
    ensures { (text : List ℕ) (error : read.Fault) (tree : Data) → IsTextFault text error
        → IsDocument (folded text) tree → ⊥ }
{}

/// Two results that the contract of `from_str` allows for one text hold the same table, where one of them holds a
/// `Table`; no error but want of memory stands beside it.
#[tactic(auto, using(crate::proofs::OneAnswer::reading_has_one_table))]
pub fn reading_has_one_table()
    ensures { ReadingHasOneTable }
{}

/// Two errors that the contract of `from_str` into a `Table` allows for one text are the same, but for want of memory.
#[tactic(auto, using(crate::proofs::OneAnswer::reading_has_one_error))]
pub fn reading_has_one_error()
    ensures { ReadingHasOneError }
{}

/// Two results that the contract of `to_string` allows for one value agree: the same text, or the same error, but for
/// want of memory and an error of the type's own.
#[tactic(auto, using(crate::proofs::OneAnswer::writing))]
pub fn writing_has_one_answer<T: Serialize>(value: &T)
    ensures { WritesOneAnswer (T.calls value.now) (T.gives_up value.now) }
{
    let _ = value;
}

/// Two results that the contract of `round_trip` allows for one value agree: the same table, or the same error, but for
/// want of memory and an error of the type's own.
#[tactic(auto, using(crate::proofs::OneAnswer::round))]
pub fn round_trip_has_one_answer<T: Serialize>(value: &T)
    ensures { RoundTripsToOneAnswer (T.calls value.now) (T.gives_up value.now) }
{
    let _ = value;
}

/// The text of a table with its rows first is read back as that table, wherever some order of its entries can be written.
#[tactic(auto, using(crate::proofs::OrderReadBack::rows_first_read_back))]
pub fn rows_first_is_read_back()
    ensures { RowsFirstIsReadBack }
{}

/// A text of blanks, comments and line feeds is read as a `Table` without keys, whatever memory there is.
#[tactic(auto, using(crate::proofs::MemoryIsWanted::blanks_are_read))]
pub fn blanks_are_read()
    ensures { BlanksAreRead }
{}

/// A want of memory that the contract of `from_str` or `from_slice` allows has no offset, no line and column, and no
/// keys, where those that the type names have none.
#[tactic(auto, using(crate::proofs::MemoryHasNoPlace::read_without_place))]
pub fn reading_memory_has_no_place<'de, T: Deserialize<'de>>(value: &T)
    ensures { ReadsWithoutPlace T.takes T.reads T.faults }
{
    let _ = value;
}

/// A want of memory that the contract of `read_tree` allows has no offset, no line and column, and no keys.
#[tactic(auto, using(crate::proofs::MemoryHasNoPlace::tree_without_place))]
pub fn tree_memory_has_no_place()
    ensures { TreesWithoutPlace }
{}

/// A want of memory that the contracts of `to_string` and `round_trip` allow has no offset, no line and column, and no
/// keys.
#[tactic(auto, using(crate::proofs::MemoryHasNoPlace::written_without_place, crate::proofs::MemoryHasNoPlace::round_trip_without_place))]
pub fn writing_memory_has_no_place<T: Serialize>(value: &T)
    ensures written { WritesWithoutPlace (T.calls value.now) (T.gives_up value.now) }
    ensures round_trip { RoundTripsWithoutPlace (T.calls value.now) (T.gives_up value.now) }
{
    let _ = value;
}
