//! What stands at a node, and the name of its kind.

ghost use Rattle.std.specs.Prelude.{◌≡◌, ◌==◌, ℕ, false};
ghost use Rattle.basic_toml_grow.specs.Item.{child_trie};
ghost use Rattle.basic_toml_grow.specs.Origins.{child_origins};
ghost use Rattle.basic_toml_grow.specs.declared.item.Child.{out-Child};
ghost use Rattle.basic_toml_tree.specs.Data.{child_data};
ghost use Rattle.basic_toml_tree.specs.IsKind.{IsKind, is_slice};
ghost use Rattle.basic_toml_tree.specs.Nodes.{spot_data};
ghost use Rattle.basic_toml_tree.specs.Origin.{spot_is_borrowed, spot_is_made, spot_name, spot_section};
ghost use Rattle.basic_toml_tree.specs.Stands.{SpotComes, spot_trie, wraps_table};

use crate::plain_value::PlainValue;
use crate::section_table::SectionTable;
use basic_toml_grow::{Child, Item, Table};
use basic_toml_read::{Raw, Row};
use basic_toml_value::Float;

/// A table of headers or of dotted keys: with entries, or with the rows of a section.
#[derive(Clone, Copy)]
pub(crate) enum HeaderTable<'t, 'de> {
    Entries(&'t Table<'de>),
    Section(SectionTable<'t, 'de>),
}

/// What stands at a node.
#[derive(Clone, Copy)]
pub(crate) enum Spot<'t, 'de> {
    /// A table of headers or of dotted keys.
    Table(HeaderTable<'t, 'de>),
    Item(&'t Item<'de>),
    /// A value within an array or an inline table of plain values.
    Plain(PlainValue<'t, 'de>),
}

/// What stands in a table: its entries, or its rows as they were read.
#[derive(Clone, Copy)]
pub(crate) enum Fields<'t, 'de> {
    Table(&'t Table<'de>),
    /// The rows of an inline table.
    Rows(&'t [Row<'de>]),
    /// The rows of the section with a number.
    Section(&'t [Row<'de>], usize),
}

/// A value by its kind. A string is a slice of the document, or a copy.
#[derive(Clone, Copy)]
pub(crate) enum Kind<'t, 'de> {
    Integer(i64),
    Float(&'t Float),
    Boolean(bool),
    Slice(&'de str),
    Copy(&'t str),
    Array,
    Table,
}

impl<'t, 'de> Spot<'t, 'de> {
    /// What stands at a key of a table.
    #[inline(always)]
    pub fn of(child: &'t Child<'de>) -> Spot<'t, 'de>
        ensures trie { spot_trie result ≡ child_trie child.now }
        ensures data { spot_data result ≡ child_data child.now }
        ensures own { wraps_table result ≡ false }
        ensures comes { (count : ℕ) → (count == 0) ≡ false
            → SpotComes (child_origins child.now) count result (out-Child child.now).start }
    {
        match &child.item {
            Item::Table(table) => Spot::Table(HeaderTable::Entries(table)),
            Item::Section(table) => {
                Spot::Table(HeaderTable::Section(SectionTable {
                    rows: table.rows(),
                    section: child.section,
                }))
            }
            item => Spot::Item(item),
        }
    }

    /// Its kind.
    pub fn kind(self) -> Kind<'t, 'de>
        ensures kind { IsKind (spot_data self.entry) result }
        ensures slice { is_slice result ≡ spot_is_borrowed self.entry }
    {
        match self {
            Spot::Table(_) => Kind::Table,
            Spot::Item(item) => match item {
                Item::Integer(number) => Kind::Integer(*number),
                Item::Float(float) => Kind::Float(float),
                Item::True => Kind::Boolean(true),
                Item::False => Kind::Boolean(false),
                Item::String(text) => Kind::Slice(text),
                Item::Escaped(text) => Kind::Copy(text.as_str()),
                Item::Plain(_) | Item::Array(_) => Kind::Array,
                Item::Tables(_) | Item::Sections(_) => Kind::Array,
                Item::Rows(_) | Item::Inline(_) => Kind::Table,
                Item::Table(_) | Item::Section(_) => Kind::Table,
            },
            Spot::Plain(plain) => match plain.value {
                Raw::Integer(number) => Kind::Integer(*number),
                Raw::Float(float) => Kind::Float(float),
                Raw::True => Kind::Boolean(true),
                Raw::False => Kind::Boolean(false),
                Raw::String(text) => Kind::Slice(text),
                Raw::Escaped(text) => Kind::Copy(text.as_str()),
                Raw::Array(_) => Kind::Array,
                Raw::Inline(_) => Kind::Table,
                Raw::Dotted(_) => unreachable!(),
            },
        }
    }

    /// Whether headers made it, where so many keys lead to it.
    pub fn is_made(self, count: usize) -> bool
        ensures { result ≡ spot_is_made count self.entry }
    {
        match self {
            Spot::Table(HeaderTable::Entries(table)) => count == 0 || table.is_made(),
            Spot::Table(HeaderTable::Section(_)) => true,
            Spot::Item(Item::Tables(_) | Item::Sections(_)) => true,
            _ => false,
        }
    }

    /// The section whose header is the latest that leads here, if headers made it and it is not the root.
    pub fn section(self) -> Option<usize>
        ensures { result ≡ spot_section self.entry }
    {
        match self {
            Spot::Table(HeaderTable::Entries(table)) if table.is_made() => Some(table.section),
            Spot::Table(HeaderTable::Section(table)) => Some(table.section),
            Spot::Item(Item::Tables(tables)) => Some(tables.1.section),
            Spot::Item(Item::Sections(tables)) => Some(tables.section()),
            _ => None,
        }
    }

    /// What it is called, where so many keys lead to it.
    pub fn type_name(self, count: usize) -> &'static str
        ensures { result.now ≡ spot_name count self.entry }
    {
        match self {
            Spot::Table(_) => {
                if self.is_made(count) {
                    "table"
                } else {
                    "dotted table"
                }
            }
            Spot::Item(item) => match item {
                Item::Integer(_) => "integer",
                Item::Float(_) => "float",
                Item::True | Item::False => "boolean",
                Item::String(_) | Item::Escaped(_) => "string",
                Item::Plain(_) | Item::Array(_) => "array",
                Item::Rows(_) | Item::Inline(_) => "inline table",
                Item::Table(_) | Item::Section(_) => "dotted table",
                Item::Tables(_) | Item::Sections(_) => "array",
            },
            Spot::Plain(plain) => match plain.value {
                Raw::Integer(_) => "integer",
                Raw::Float(_) => "float",
                Raw::True | Raw::False => "boolean",
                Raw::String(_) | Raw::Escaped(_) => "string",
                Raw::Array(_) => "array",
                Raw::Inline(_) => "inline table",
                Raw::Dotted(_) => unreachable!(),
            },
        }
    }
}
