//! Why a row is not put into a table.

ghost use Rattle.std.specs.Prelude.{◌≡◌, None};
ghost use Rattle.basic_toml_value.specs.Data.{Data};
ghost use Rattle.basic_toml_grammar.specs.Marks.{valued};
ghost use Rattle.basic_toml_grammar.specs.Trie.{mark_here};
ghost use Rattle.basic_toml_grow.specs.Item.{child_trie};
ghost use Rattle.basic_toml_grow.specs.RowStops.{TellsLast};

use crate::item::{Child, Item};
use std::alloc::AllocError;

/// Why a row is not put into a table.
#[derive(Clone, Copy, Drop)]
pub(crate) enum Met {
    Memory,
    /// What stands at one of its keys is in the way, with so many keys left from that key on.
    Header(usize),
    /// Its last key stands before it, by a row.
    Row,
}

impl From<AllocError> for Met {
    ghost use Rattle.std.specs.Prelude.{◌≡◌};
    ghost use Rattle.basic_toml_grow.specs.declared.met.Met.TheVariants.{Memory};

    ghost from_gives = { λ _ met. met ≡ Memory };

    fn from(_error: AllocError) -> Met {
        Met::Memory
    }
}

/// Why what stands at a row's last key keeps the row out.
pub(crate) fn what_is_met(there: &Child<'_>) -> Met
    ensures stands { (d : Data) → mark_here (valued d) (child_trie there.now) ≡ None }
    ensures named { TellsLast (child_trie there.now) result }
{
    match &there.item {
        Item::Table(table) => {
            if table.is_made() {
                Met::Header(1)
            } else {
                Met::Row
            }
        }
        Item::Section(_) => Met::Header(1),
        Item::Sections(_) => Met::Header(1),
        Item::Tables(_) => Met::Header(1),
        _ => Met::Row,
    }
}
