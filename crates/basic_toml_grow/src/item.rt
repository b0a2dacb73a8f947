//! What stands at a key or a number of a document, while its tree grows and when all of it is read.

ghost use Rattle.std.specs.Prelude.{◌≡◌, ◌||◌, IfOk, false};
ghost use Rattle.basic_toml_grow.specs.declared.item.Child.{out-Child};
ghost use Rattle.basic_toml_grow.specs.declared.item.Table.{out-Table};
ghost use Rattle.basic_toml_grow.specs.Headers.{IsNew};
ghost use Rattle.basic_toml_grow.specs.Item.{item_trie, child_trie, table_trie, empty_table};
ghost use Rattle.basic_toml_grow.specs.Origins.{item_origins, child_origins, entry, no_origins, table_origin};

use basic_toml_plain::{PlainArray, PlainTable, PlainTables};
use basic_toml_value::{Float, Pairs};
use std::alloc::{AllocError, Global};

/// What stands at a key or a number.
#[cycle(items)]
#[derive(Drop)]
pub enum Item<'de> {
    Integer(i64),
    Float(Float),
    True,
    False,
    /// A string as it stands in the text.
    String(&'de str),
    /// A copy of a string, where escapes are resolved or line ends are made line feeds.
    Escaped(String),
    /// An array of plain values, as it was read.
    Plain(PlainArray<'de>),
    /// An inline table of a few rows with plain values, as it was read.
    Rows(PlainTable<'de>),
    /// Any other array.
    Array(Vec<Child<'de>>),
    /// Any other inline table.
    Inline(Box<Table<'de>>),
    /// A table of headers or of dotted keys.
    Table(Box<Table<'de>>),
    /// A table that one header alone speaks of, whose rows are few and simple: as they were read. It makes no entries
    /// before another header goes on from it.
    Section(PlainTable<'de>),
    /// An array of tables, of each of which one header alone speaks, whose rows are few and simple: as they were read.
    /// They make no entries before another header goes on from the latest one, or rows that are not simple come.
    Sections(Box<PlainTables<'de>>),
    /// The tables of an array of tables: those before the latest, and the latest. Their box keeps an item as small as a
    /// raw value, and an entry of the tree as large as one of a `Table`: so the `Table` takes the memory that the tree's
    /// entries gave back.
    Tables(Box<(Vec<Table<'de>>, Table<'de>)>),
}

/// An item, and where it comes from.
#[cycle(items)]
#[derive(Drop)]
pub struct Child<'de> {
    /// The byte offset of the value; of a dotted table, that of the first value whose row made it.
    pub start: usize,
    /// The number of the section whose row or header first mentioned it.
    pub section: usize,
    pub item: Item<'de>,
}

/// A table that grows: what was said of it, and its entries.
#[cycle(items)]
#[derive(Drop)]
pub struct Table<'de> {
    /// Whether a header passes through it.
    pub passed: bool,
    /// Whether a header names it.
    pub named: bool,
    /// Whether the dots of a row extend it.
    pub dotted: bool,
    /// The number of the latest section whose header names it or passes through it, if there is one.
    pub section: usize,
    pub entries: Pairs<Child<'de>>,
}

impl<'de> Child<'de> {
    /// An item that comes from an offset and a section.
    #[inline(always)]
    pub(crate) fn at(start: usize, section: usize, item: Item<'de>) -> Child<'de>
        ensures trie { child_trie result ≡ item_trie item.entry }
        ensures origins { child_origins result ≡ item_origins item.entry start section }
        ensures start { (out-Child result).start ≡ start }
        ensures section { (out-Child result).section ≡ section }
        ensures item { (out-Child result).item ≡ item.entry }
    {
        Child {
            start,
            section,
            item,
        }
    }

    /// A table without entries, of which nothing is said yet, with room for so many.
    pub(crate) fn table(
        alloc: Global,
        start: usize,
        section: usize,
        room: usize,
    ) -> Result<Child<'de>, AllocError>
        ensures trie { IfOk result (λ child. child_trie child ≡ empty_table) }
        ensures origins { IfOk result (λ child.
            child_origins child ≡ entry (table_origin false start section) no_origins) }
    {
        let mut table = Table::new(alloc)?;
        table.entries.reserve(room)?;
        Ok(Child::at(start, section, Item::Table(table)))
    }

    /// What a header makes at a key where nothing stands: a table, or an array of one table. They are without entries,
    /// and nothing is said of them yet.
    pub(crate) fn of_header(alloc: Global, is_array: bool) -> Result<Child<'de>, AllocError>
        ensures { IfOk result (λ child. IsNew is_array (out-Child child).item) }
    {
        if is_array {
            let tables = Box::new(alloc, (Vec::new(alloc), Table::empty(alloc)))?;
            return Ok(Child::at(0, 0, Item::Tables(tables)));
        }
        Ok(Child::at(0, 0, Item::Table(Table::new(alloc)?)))
    }
}

impl<'de> Table<'de> {
    /// A table without entries, of which nothing is said yet. It takes no memory.
    pub fn empty(alloc: Global) -> Table<'de>
        ensures { table_trie result ≡ empty_table }
    {
        Table {
            passed: false,
            named: false,
            dotted: false,
            section: 0,
            entries: Pairs::new(alloc),
        }
    }

    /// The same in a box, as items hold it.
    ///
    /// # Errors
    ///
    /// `AllocError` where memory for it is refused.
    pub fn new(alloc: Global) -> Result<Box<Table<'de>>, AllocError>
        ensures { IfOk result (λ table. table_trie table.value ≡ empty_table) }
    {
        Ok(Box::new(alloc, Table::empty(alloc))?)
    }

    /// Whether a header names it or passes through it.
    pub fn is_made(&self) -> bool
        ensures { result ≡ ((out-Table self.now).passed || (out-Table self.now).named) }
    {
        self.passed || self.named
    }
}
