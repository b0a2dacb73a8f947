//! Reading texts.
ghost use Rattle.std.specs.Prelude.{◌≡◌, IfOk, IfErr, IsUtf8, true, false};
ghost use Rattle.basic_toml_tokens.specs.Text.{folded};
ghost use Rattle.basic_toml_value.specs.Data.{Data};
ghost use Rattle.basic_toml_grammar.specs.Document.{IsDocument};
ghost use Rattle.basic_toml_grammar.specs.OldRules.{has_no_delete, WasDocument};
ghost use Rattle.basic_toml_grammar.specs.Respelled.{with_returns, has_return, with_byte_order_mark, has_byte_order_mark};
ghost use Rattle.basic_toml_read.specs.SectionsAnswer.{HoldsMore};
ghost use Rattle.basic_toml_tree.specs.Data.{table_data};
ghost use Rattle.basic_toml_typed.specs.TypeAnswers.{AtRoot, IfGrows, OrMemory};
ghost use Rattle.basic_toml_error.specs.Fault.{not_text};
ghost use Rattle.basic_toml.specs.Reading.{IsLined, ReadsText, ReadsData, AnswersTree, ReadsTree};
ghost use Rattle.basic_toml.specs.Reading.{WantsMemory};

use crate::{Deserialize, Error};
use basic_toml_tree::{Tree, tree_of};
use std::alloc::Global;

/// Reads a value from a text (TOML v0.5.0, without dates and times).
///
/// ```text
/// let settings: Table = from_str(alloc, "port = 80\n")?;
/// ```
///
/// This is from `toml_vectors`. A `Table` takes every text that has a document; the program `load_settings` reads
/// a type of its own.
///
/// # Errors
///
/// Where the text has no document: an error of the grammar; where its rows and sections clash, an error of a clash;
/// `nested too deeply` where it is nested more than [`NESTING_LIMIT`](basic_toml_value::NESTING_LIMIT) deep. Where a type
/// reads nothing from the document, the type's own error, one that it names by its `faults`; and `out of memory` where a
/// growth was refused. A text of blanks, comments and line feeds gives that only where the type may ask for memory for a
/// table without keys, as `Table` and `Value` do not.
///
/// # Other spellings
///
/// What is read stays the same where each LF is written CR LF, and where one U+FEFF stands in front; and a text without
/// U+007F reads as the document that it had by the older rules.
pub fn from_str<'de, T: Deserialize<'de>>(alloc: Global, s: &'de str) -> Result<T, Error>
    ensures read { ReadsText T.takes T.reads T.faults s.now result }
    ensures memory { IfErr result (WantsMemory T.grows s.now) }
    ensures line_feeds { has_return s.now ≡ false → (tree : Data) → IsDocument (folded (with_returns s.now)) tree
        → ReadsData T.takes T.reads tree result }
    ensures mark { has_byte_order_mark s.now ≡ false → (tree : Data)
        → IsDocument (folded (with_byte_order_mark s.now)) tree → ReadsData T.takes T.reads tree result }
    ensures older_rules { has_no_delete (folded s.now) ≡ true → (tree : Data) → WasDocument (folded s.now) tree
        → ReadsData T.takes T.reads tree result }
{
    read_text(alloc, s)
}

#[tactic(auto, using(crate::proofs::ReadingEnds::ends))]
fn read_text<'de, T: Deserialize<'de>>(alloc: Global, text: &'de str) -> Result<T, Error>
    ensures read { ReadsText T.takes T.reads T.faults text.now result }
    ensures memory { IfErr result (WantsMemory T.grows text.now) }
{
    let tree = tree_in(alloc, text)?;
    read_from(alloc, tree, text)
}

// What a type reads from the tree of a text; its error with the line and the column of its offset.
#[tactic(auto, using(crate::proofs::ReadingEnds::read_lined))]
fn read_from<'de, T: Deserialize<'de>>(
    alloc: Global,
    tree: Tree<'de>,
    text: &str,
) -> Result<T, Error>
    ensures ok { IfOk result (λ value. T.reads (table_data tree.entry.root) value) }
    ensures err { IfErr result (IsLined (T.takes (table_data tree.entry.root))
        (T.reads (table_data tree.entry.root))
        (λ own. AtRoot (λ root. OrMemory (T.faults root) own) tree.entry) text.now) }
    ensures memory { IfErr result (IfGrows (T.grows (table_data tree.entry.root))) }
{
    match T::from_tree(alloc, tree) {
        Ok(value) => Ok(value),
        Err(error) => Err(error.with_line(text)),
    }
}

/// The tree of a text's document (TOML v0.5.0, "Spec"), whose nodes are read from `root`.
///
/// ```text
/// let tree = read_tree(alloc, "port = 80\n")?;
/// let port = tree.root().get("port"); // a node with the integer 80
/// ```
///
/// This is from `toml_vectors`. It serves whoever reads types by a trait of their own from the nodes.
///
/// # Errors
///
/// Those that [`from_str`] has where the text has no document, with the line and the column; and `out of memory`. Of a
/// text of blanks, comments and line feeds there is none.
#[tactic(auto, using(crate::proofs::ReadingEnds::tree_ends))]
pub fn read_tree<'de>(alloc: Global, text: &'de str) -> Result<Tree<'de>, Error>
    ensures tree { ReadsTree text.now result }
    ensures more { IfErr result (λ _. HoldsMore (folded text.now)) }
{
    tree_in(alloc, text)
}

// The tree of a text's document, or its error with line and column.
#[tactic(auto, using(crate::proofs::ReadingEnds::with_lines))]
fn tree_in<'de>(alloc: Global, text: &'de str) -> Result<Tree<'de>, Error>
    ensures tree { AnswersTree text.now result }
    ensures more { IfErr result (λ _. HoldsMore (folded text.now)) }
{
    match tree_of(alloc, text) {
        Ok(tree) => Ok(tree),
        Err(error) => Err(Error::in_text(alloc, text, &error)),
    }
}

/// Reads a value from bytes, as [`from_str`] does where they are UTF-8 (TOML v0.5.0, "Spec"). `toml_answer` calls it.
///
/// # Errors
///
/// `input is not valid UTF-8` where they are not, and the errors of [`from_str`].
pub fn from_slice<'de, T: Deserialize<'de>>(alloc: Global, bytes: &'de [u8]) -> Result<T, Error>
    ensures text { IsUtf8 bytes.now → ReadsText T.takes T.reads T.faults bytes.now result }
    ensures memory { IfErr result (WantsMemory T.grows bytes.now) }
    ensures other { ¬ IsUtf8 bytes.now → result ≡ Err not_text }
{
    match simdutf8::compat::from_utf8(bytes) {
        Ok(text) => from_str(alloc, text),
        Err(_) => Err(Error::not_utf8()),
    }
}
