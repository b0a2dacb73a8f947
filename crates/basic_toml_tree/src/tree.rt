//! From a section list to its tree: `resolve`, and what the whole tree answers.
ghost use Rattle.std.specs.Prelude.{◌≡◌, [], IfErr, IfOk};
ghost use Rattle.basic_toml_value.specs.Data.{table as table_of_members};
ghost use Rattle.basic_toml_value.specs.View.{entries};
ghost use Rattle.basic_toml_tree.specs.Data.{table_data, HoldsAny};
ghost use Rattle.basic_toml_tree.specs.Nodes.{node_data};
ghost use Rattle.basic_toml_tree.specs.Origin.{last_at};
ghost use Rattle.basic_toml_tree.specs.Order.{ResolvesInAnyOrder};
ghost use Rattle.basic_toml_tree.specs.Resolve.{Resolves};
ghost use Rattle.basic_toml_tree.specs.Stands.{StandsAt};

use crate::headers::Headers;
use crate::node::Node;
use crate::spot::{HeaderTable, Spot};
use crate::trail::Trail;
use crate::values::into_table;
use basic_toml_grow::{Table, enter_section, first_crossed_value};
use basic_toml_read::{ReadError, ReadErrorKind, Section};
use basic_toml_value as values;
use std::alloc::{AllocError, Global};

/// The tree of a section list. `Tree::root` is its first node, and `Tree::into_table` makes a table of it.
#[derive(Drop)]
pub struct Tree<'de> {
    pub(crate) headers: Headers<'de>,
    pub(crate) root: Table<'de>,
}

impl<'de> Tree<'de> {
    /// The table of the whole document.
    #[tactic(auto, using(crate::proofs::Nodes::OuterStands::root_keeps, crate::proofs::Nodes::KeysLead::root_count, crate::proofs::Nodes::KeysLead::root_keys, crate::proofs::Nodes::KeysLead::root_rows))]
    pub fn root(&self) -> Node<'_, 'de>
        ensures data { node_data result ≡ table_data self.now.root }
        ensures stands { StandsAt self.now [] result }
    {
        Node {
            tree: self,
            spot: Spot::Table(HeaderTable::Entries(&self.root)),
            start: 0,
            outer: None,
            count: 0,
            trail: Trail::Header(0),
        }
    }

    /// The table of the document. Strings and keys are moved into it, and the tree's memory is given back on the way.
    ///
    /// # Errors
    ///
    /// `AllocError` where a growth was refused. A table without entries takes no memory.
    pub fn into_table(self, alloc: Global) -> Result<values::Table, AllocError>
        ensures table { IfOk result (λ moved. table_of_members (entries moved) ≡ table_data self.entry.root) }
        ensures memory { IfErr result (λ _. HoldsAny (table_data self.entry.root)) }
    {
        let Tree { headers: _, root } = self;
        into_table(alloc, root)
    }
}

/// The tree of a section list, or the error of the first section that does not go into it (TOML v0.5.0, "Table" and
/// "Array of Tables").
///
/// Memory aside, it accepts exactly the lists in which nothing clashes and whose tree is no deeper than
/// [`NESTING_LIMIT`](basic_toml_value::NESTING_LIMIT), and answers the tree of their mentions. The sections in another
/// order, in which each keeps its indexed path (without array sections: in any order), have a tree of the same maps, or
/// none.
///
/// # Errors
///
/// `DottedKeyInvalidType` comes before every other clash. Else it is the error of the first section that the tree of
/// those before it does not take. That is what the section meets first: a clash, or a level above that limit, which is
/// `NestedTooDeeply`. At each table and array on the header's way, each bracket and each row, the level comes before
/// what stands there. `OutOfMemory` comes where memory is refused, and not for a list without sections. All but the
/// last have a byte offset.
///
/// The cases of `toml_cases` call it; [`tree_of`](crate::tree_of) goes from a text to its tree without a list.
#[tactic(auto, using(crate::proofs::OrderIsFree::in_any_order))]
pub fn resolve<'de>(alloc: Global, sections: Vec<Section<'de>>) -> Result<Tree<'de>, ReadError>
    ensures resolves { Resolves sections.entry.items result }
    ensures order { ResolvesInAnyOrder sections.entry.items result }
{
    grow(alloc, sections)
}

// The tree of a section list, into which its sections go one after another.
fn grow<'de>(alloc: Global, sections: Vec<Section<'de>>) -> Result<Tree<'de>, ReadError>
    ensures { Resolves sections.entry.items result }
{
    let mut sections = sections;
    if sections.is_empty() {
        return Ok(Tree {
            headers: Headers::new(alloc),
            root: Table::empty(alloc),
        });
    }
    if let Some(at) = first_crossed_value(alloc, sections.as_slice())? {
        return Err(ReadError::at(at, ReadErrorKind::DottedKeyInvalidType));
    }
    let mut root = Table::empty(alloc);
    let mut headers = Headers::new(alloc);
    for number in 0..sections.len() {
        let section = &mut sections[number];
        match enter_section(alloc, &mut root, section, number) {
            Ok(()) => {}
            Err(clash) => return Err(clash.error(alloc, section)),
        }
        headers.push(section.at, &mut section.header)?;
    }
    Ok(Tree { headers, root })
}
