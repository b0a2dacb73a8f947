//! Laws about tokens and memory, each as the contract of a function that does nothing, and one about classes, of a
//! function that asks both ways.

ghost use Rattle.std.specs.Prelude.{◌≡◌, ◌+◌, ◌≤◌, length};
ghost use Rattle.basic_toml_tokens.specs.Statements.{WantOfMemoryIsOwed, OnlyStringsTakeMemory, OnlyCopiesTakeMemory, OnlyCopiesBeforeABreak, EndTakesNoMemory};

use crate::class::is_in;
use crate::lanes::{LANES, Wide, run_in_block};

/// Whether a byte is of a class, by the table and by a block that begins with it: both say the same.
pub fn table_and_block_agree(class: Wide, block: &[u8; LANES]) -> (bool, bool)
    ensures { result.0 ≡ result.1 }
{
    let by_table = is_in(class.class(), block[0]);
    let by_block = run_in_block(class, block, 0) > 0;
    (by_table, by_block)
}

/// Want of memory is answered only where memory is needed, and is no error of the text.
pub fn want_of_memory_is_owed()
    ensures { WantOfMemoryIsOwed }
{}

/// Memory is needed only where a quote stands: not for a punctuation, a word, blanks, a comment, a line feed
/// or a character that begins no token.
#[tactic(auto, using(crate::proofs::MemoryIsOwed::only_strings))]
pub fn only_strings_take_memory()
    ensures { OnlyStringsTakeMemory }
{}

/// Where a token stands, memory is needed exactly where it is a string whose value is copied.
#[tactic(auto, using(crate::proofs::MemoryIsOwed::only_copies))]
pub fn only_copies_take_memory()
    ensures { OnlyCopiesTakeMemory }
{}

/// Where a string breaks, memory is needed exactly where something before asks for a copy.
pub fn only_copies_before_a_break()
    ensures { OnlyCopiesBeforeABreak }
{}

/// At the end of a text the end is answered, whatever memory there is.
#[tactic(auto, using(crate::proofs::MemoryIsOwed::at_the_end))]
pub fn end_takes_no_memory()
    ensures { EndTakesNoMemory }
{}
