//! What a node is found by again in the section list of its text.
ghost use Rattle.std.specs.Prelude.{◌≡◌, List};
ghost use Rattle.basic_toml_grammar.specs.Sections.{Section};
ghost use Rattle.basic_toml_grammar.specs.Steps.{Path};
ghost use Rattle.basic_toml_origin.specs.Anchor.{IsAnchorOf};
ghost use Rattle.basic_toml_tree.specs.Origin.{anchor_of, spot_anchor};
ghost use Rattle.basic_toml_tree.specs.Stands.{IsNodeAt};

use crate::node::Node;
use crate::spot::{HeaderTable, Spot};
use basic_toml_grow::Item;
use basic_toml_origin::Anchor;

impl<'t, 'de> Node<'t, 'de> {
    /// What it is found by again in the section list of its text: `path_to_anchor` of `basic_toml_origin` gives its
    /// path. It takes no memory.
    #[tactic(auto, unfolding(crate::specs::Origin::anchor_of), using(crate::proofs::Nodes::NodesAnchored::anchored))]
    pub fn anchor(self) -> Anchor
        ensures is { result ≡ anchor_of self.entry }
        ensures leads { (sections : List Section) (p : Path) → IsNodeAt sections p self.entry
            → IsAnchorOf sections p result }
    {
        if self.count == 0 {
            Anchor::Root
        } else {
            self.spot.anchor(self.start, self.count)
        }
    }
}

impl<'t, 'de> Spot<'t, 'de> {
    // That of a node that is not the root, which begins at an offset, and to which so many keys lead.
    fn anchor(self, start: usize, keys: usize) -> Anchor
        ensures { result ≡ spot_anchor self.entry start keys }
    {
        match self {
            Spot::Table(HeaderTable::Entries(table)) if table.is_made() => Anchor::Table {
                section: table.section,
                keys,
            },
            Spot::Table(HeaderTable::Section(table)) => Anchor::Table {
                section: table.section,
                keys,
            },
            Spot::Item(Item::Tables(tables)) => Anchor::Array {
                section: tables.1.section,
                keys,
            },
            Spot::Item(Item::Sections(tables)) => Anchor::Array {
                section: tables.section(),
                keys,
            },
            _ => Anchor::Value { start, keys },
        }
    }
}
