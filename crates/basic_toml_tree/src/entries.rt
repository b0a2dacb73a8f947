//! Iterators over nodes: the elements of an array, and the entries of a table.

use crate::node::Node;
use crate::spot::Fields;

/// The elements of an array in order.
#[derive(Clone, Copy, Drop)]
pub struct Elements<'t, 'de> {
    pub(crate) array: Node<'t, 'de>,
    pub(crate) at: usize,
}

impl<'t, 'de> Iterator for Elements<'t, 'de> {
    ghost use Rattle.std.specs.Iterator.{item_count};
    ghost use Rattle.basic_toml_tree.specs.Nodes.{elements_left};
    ghost use Rattle.basic_toml_tree.specs.Stands.{GivesElement};

    ghost next_gives = { GivesElement };

    ghost remaining = { item_count elements_left };

    type Item = Node<'t, 'de>;

    fn next(&mut self) -> Option<Node<'t, 'de>> {
        let at = self.at;
        let node = self.array.element_at(at)?;
        self.at = at + 1;
        Some(node)
    }
}

/// The keys of a table with their values in order.
#[derive(Clone, Copy, Drop)]
pub struct Entries<'t, 'de> {
    pub(crate) table: Node<'t, 'de>,
    pub(crate) at: usize,
}

impl<'t, 'de> Iterator for Entries<'t, 'de> {
    ghost use Rattle.std.specs.Iterator.{item_count};
    ghost use Rattle.basic_toml_tree.specs.Nodes.{entries_left};
    ghost use Rattle.basic_toml_tree.specs.Stands.{GivesEntry};

    ghost next_gives = { GivesEntry };

    ghost remaining = { item_count entries_left };

    type Item = (&'t str, Node<'t, 'de>);

    fn next(&mut self) -> Option<(&'t str, Node<'t, 'de>)> {
        let at = self.at;
        match self.table.as_table()? {
            Fields::Table(table) => {
                if at >= table.entries.len() {
                    return None;
                }
                let _pairs = table.entries.entries();
                self.at += 1;
                let key = table.entries.key(at);
                Some((key, self.table.below(key, table.entries.value(at))))
            }
            Fields::Rows(rows) => {
                let row = rows.get(at)?;
                self.at += 1;
                Some((row.key.as_str(), self.table.plain_row(row)))
            }
            Fields::Section(rows, section) => {
                let row = rows.get(at)?;
                self.at += 1;
                Some((row.key.as_str(), self.table.section_row(row, section)))
            }
        }
    }
}
