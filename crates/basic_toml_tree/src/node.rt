//! The nodes of a tree: what a type asks one for, and where it comes from.

ghost use Rattle.std.specs.Prelude.{◌≡◌, ◌<◌, ◌≤◌, true, ℕ, take, false, is_some, List, Some, None, IsSome, IfSome, IfNone, IsTrue, IfOk, IfErr};
ghost use Rattle.std.specs.Prelude.{MatchOption, length, map, slice_get, string_bytes};
ghost use Rattle.std.specs.Option.{option_copied};
ghost use Rattle.basic_toml_value.specs.Data.{table as table_of_members, integer_in, boolean_in, float_in, string_in};
ghost use Rattle.basic_toml_index.specs.Keys.{are_distinct, is_among};
ghost use Rattle.basic_toml_value.specs.Pairs.{keys_of};
ghost use Rattle.basic_toml_value.specs.View.{view, entries};
ghost use Rattle.basic_toml_grammar.specs.Sections.{Section};
ghost use Rattle.basic_toml_grammar.specs.Steps.{Path};
ghost use Rattle.basic_toml_grammar.specs.IndexedPath.{located};
ghost use Rattle.basic_toml_grammar.specs.Nodes.{is_made as made_by_headers};
ghost use Rattle.basic_toml_explain.specs.Error.{want_of_memory};
ghost use Rattle.basic_toml_plain.specs.Plain.{are_plain, key_of as row_key};
ghost use Rattle.basic_toml_tree.specs.Data.{table_data, child_data, HoldsAny};
ghost use Rattle.basic_toml_tree.specs.Nodes.{node_data, is_table, is_array, fields_data, data_at};
ghost use Rattle.basic_toml_tree.specs.Nodes.{elements_in, entries_in, elements_left, entries_left};
ghost use Rattle.basic_toml_tree.specs.Origin.{is_borrowed, is_made, name_of, start_of, outer_of, offset_of, keys_of as key_path_of};
ghost use Rattle.basic_toml_tree.specs.Stands.{IsNodeAt, Foretold, ForetoldSlice};
ghost use Rattle.basic_toml_tree.specs.Stands.{HoldsFields, IsBeside, IsTableBeside, AtKey, AtNumber, BeginsIn};
ghost use Rattle.basic_toml_tree.specs.declared.spot.Spot.TheVariants as spots;
ghost use Rattle.basic_toml_tree.specs.declared.spot.HeaderTable.TheVariants as header_tables;
ghost use Rattle.basic_toml_tree.specs.Stands.{ComesFrom, IsPlainElement, IsRowAt};
ghost use Rattle.basic_toml_grow.specs.Origins.{child_origins};

use crate::entries::{Elements, Entries};
use crate::plain_value::PlainValue;
use crate::section_table::SectionTable;
use crate::spot::{Fields, HeaderTable, Kind, Spot};
use crate::trail::Trail;
use crate::tree::Tree;
use crate::values::{table_of, value_of};
use basic_toml_grow::{Child, Item, Table, key_texts};
use basic_toml_plain::{plain_table, plain_value};
use basic_toml_read::{Element, Raw, ReadError, Row};
use basic_toml_value as values;
use basic_toml_value::{Float, Value};
use std::alloc::{AllocError, Global};

/// A node of a tree: a value, and where it comes from. Types are read from one, as `bool` is in `basic_toml_typed`, by
/// `node.as_bool()`.
#[derive(Clone, Copy)]
pub struct Node<'t, 'de> {
    pub(crate) tree: &'t Tree<'de>,
    pub(crate) spot: Spot<'t, 'de>,
    // where a value begins, and the first value of a dotted table
    pub(crate) start: usize,
    // the beginning of the nearest inline or dotted table around it; with none the last section
    pub(crate) outer: Option<usize>,
    // how many keys lead to it, numbers of elements apart
    pub(crate) count: usize,
    pub(crate) trail: Trail<'t>,
}

impl<'t, 'de> Node<'t, 'de> {
    /// The number, if it is an integer.
    pub fn as_integer(self) -> Option<i64>
        ensures { result ≡ integer_in (node_data self.entry) }
    {
        match self.spot.kind() {
            Kind::Integer(number) => Some(number),
            _ => None,
        }
    }

    /// The truth value, if it is one.
    pub fn as_bool(self) -> Option<bool>
        ensures { result ≡ boolean_in (node_data self.entry) }
    {
        match self.spot.kind() {
            Kind::Boolean(truth) => Some(truth),
            _ => None,
        }
    }

    /// The float, if it is one.
    pub fn as_float(self) -> Option<&'t Float>
        ensures { option_copied result ≡ float_in (node_data self.entry) }
    {
        match self.spot.kind() {
            Kind::Float(float) => Some(float),
            _ => None,
        }
    }

    /// The text, if it is a string.
    pub fn text(self) -> Option<&'t str>
        ensures { MatchOption result (string_in (node_data self.entry) ≡ None)
            (λ text. string_in (node_data self.entry) ≡ Some text.now) }
    {
        match self.spot.kind() {
            Kind::Slice(text) => Some(text),
            Kind::Copy(text) => Some(text),
            _ => None,
        }
    }

    /// The text, if it is a string that stands in the document as it is: without escapes, and without line ends that
    /// became line feeds.
    pub fn borrowed_text(self) -> Option<&'de str>
        ensures text { IfSome result (λ text. string_in (node_data self.entry) ≡ Some text.now) }
        ensures borrowed { is_some result ≡ is_borrowed self.entry }
        ensures foretold { ForetoldSlice self.entry (λ slice. is_some result ≡ slice) }
    {
        match self.spot.kind() {
            Kind::Slice(text) => Some(text),
            _ => None,
        }
    }

    // What stands in it, if it is a table.
    pub(crate) fn as_table(self) -> Option<Fields<'t, 'de>>
        ensures data { MatchOption result (is_table (node_data self.entry) ≡ false)
            (λ fields. node_data self.entry ≡ fields_data fields) }
        ensures fields { IfSome result (HoldsFields self.entry.spot) }
    {
        match self.spot {
            Spot::Table(HeaderTable::Entries(table)) => Some(Fields::Table(table)),
            Spot::Table(HeaderTable::Section(table)) => {
                Some(Fields::Section(table.rows, table.section))
            }
            Spot::Item(item) => match item {
                Item::Rows(table) => Some(Fields::Rows(table.rows())),
                Item::Section(table) => Some(Fields::Rows(table.rows())),
                Item::Inline(table) => Some(Fields::Table(table)),
                Item::Table(table) => Some(Fields::Table(table)),
                _ => None,
            },
            Spot::Plain(plain) => match plain.value {
                Raw::Inline(rows) => Some(Fields::Rows(rows.as_slice())),
                _ => None,
            },
        }
    }

    /// Whether it is a table.
    pub fn is_table(self) -> bool
        ensures { result ≡ is_table (node_data self.entry) }
    {
        matches!(self.spot.kind(), Kind::Table)
    }

    // A node among the elements of this array.
    fn element(self, child: &'t Child<'de>) -> Node<'t, 'de>
        ensures data { node_data result ≡ child_data child.now }
        ensures beside { IsBeside self.entry result.spot result }
        ensures comes { ComesFrom (child_origins child.now) result }
    {
        Node {
            spot: Spot::Item(&child.item),
            start: child.start,
            ..self
        }
    }

    fn element_table(self, table: &'t Table<'de>) -> Node<'t, 'de>
        ensures data { node_data result ≡ table_data table.now }
        ensures beside { IsTableBeside self.entry table.entry result }
        ensures start { result.start ≡ self.entry.start }
    {
        Node {
            spot: Spot::Table(HeaderTable::Entries(table)),
            ..self
        }
    }

    fn section_element(self, table: SectionTable<'t, 'de>) -> Node<'t, 'de>
        ensures beside { IsBeside self.entry (spots.Table (header_tables.Section table.entry)) result }
        ensures start { result.start ≡ self.entry.start }
    {
        Node {
            spot: Spot::Table(HeaderTable::Section(table)),
            ..self
        }
    }

    // A node of plain elements, which are those of this array.
    fn plain_element(self, elements: &'t [Element<'de>], at: usize) -> Option<Node<'t, 'de>>
        requires { are_plain 0 elements.now ≡ true }
        ensures within { IsSome result → at < usize.MAX }
        ensures none { IfNone result (length elements.now ≤ at) }
        ensures some { IfSome result (λ node. IsPlainElement self.entry elements.now at node) }
    {
        let element = elements.get(at)?;
        Some(Node {
            spot: Spot::Plain(PlainValue {
                value: &element.value,
            }),
            start: element.offset,
            ..self
        })
    }

    // The element at a number, if this is an array that has it.
    pub(crate) fn element_at(self, at: usize) -> Option<Node<'t, 'de>>
        ensures within { IsSome result → at < usize.MAX }
        ensures data { MatchOption result (length (elements_in (node_data self.entry)) ≤ at)
            (λ node. slice_get (elements_in (node_data self.entry)) at ≡ Some (node_data node)) }
        ensures stands { IfSome result (λ node. AtNumber self.entry at node) }
    {
        match self.spot {
            Spot::Item(Item::Array(children)) => match children.get(at) {
                Some(child) => Some(self.element(child)),
                None => None,
            },
            Spot::Item(Item::Tables(tables)) => {
                let earlier = tables.0.as_slice();
                match earlier.get(at) {
                    Some(table) => Some(self.element_table(table)),
                    None => {
                        if at == earlier.len() {
                            Some(self.element_table(&tables.1))
                        } else {
                            None
                        }
                    }
                }
            }
            Spot::Item(Item::Sections(tables)) => {
                // Their number fits, so that of each is lower than the highest.
                let _count = tables.len();
                match tables.get(at) {
                    Some((section, rows)) => {
                        Some(self.section_element(SectionTable { rows, section }))
                    }
                    None => None,
                }
            }
            Spot::Item(Item::Plain(array)) => self.plain_element(array.elements(), at),
            // As the last arm. It has its name here, so that the proof need not go through all items.
            Spot::Item(Item::Rows(_rows)) => None,
            Spot::Plain(plain) => match plain.value {
                Raw::Array(elements) => self.plain_element(elements.as_slice(), at),
                _ => None,
            },
            _ => None,
        }
    }

    /// The value at a key, if it is a table that has the key.
    #[inline(always)]
    pub fn get(self, key: &str) -> Option<Node<'t, 'de>>
        ensures data { MatchOption result (data_at (node_data self.entry) key.now ≡ None)
            (λ node. data_at (node_data self.entry) key.now ≡ Some (node_data node)) }
        ensures stands { IfSome result (λ node. AtKey self.entry key.now node) }
    {
        match self.as_table()? {
            Fields::Table(table) => {
                let Some(pair) = table.entries.pair(key) else {
                    return None;
                };
                Some(self.below(pair.key.as_str(), &pair.value))
            }
            Fields::Rows(rows) => match row_at(rows, key) {
                Some(row) => Some(self.plain_row(row)),
                None => None,
            },
            Fields::Section(rows, section) => match row_at(rows, key) {
                Some(row) => Some(self.section_row(row, section)),
                None => None,
            },
        }
    }

    /// Its elements in order, if it is an array.
    pub fn elements(self) -> Option<Elements<'t, 'de>>
        ensures elements { MatchOption result (is_array (node_data self.entry) ≡ false)
            (λ elements. IsTrue (is_array (node_data self.entry))
            × (elements_left elements ≡ elements_in (node_data self.entry))) }
        ensures stand { IfSome result (BeginsIn self.entry) }
    {
        match self.spot.kind() {
            Kind::Array => Some(Elements { array: self, at: 0 }),
            _ => None,
        }
    }

    /// Its keys with their values in order, each key once, if it is a table.
    #[tactic(auto, using(crate::proofs::Nodes::NodesInOrder::table_keys))]
    pub fn entries(self) -> Option<Entries<'t, 'de>>
        ensures entries { MatchOption result (is_table (node_data self.entry) ≡ false)
            (λ entries. IsTrue (is_table (node_data self.entry))
            × (entries_left entries ≡ entries_in (node_data self.entry))) }
        ensures distinct { IfSome result (λ _. IsTrue (are_distinct (keys_of (entries_in (node_data self.entry))))) }
        ensures stand { IfSome result (λ entries. entries.table ≡ self.entry) }
    {
        match self.as_table()? {
            Fields::Table(table) => {
                let _pairs = table.entries.entries();
                Some(Entries { table: self, at: 0 })
            }
            Fields::Rows(_) | Fields::Section(_, _) => Some(Entries { table: self, at: 0 }),
        }
    }

    /// A copy of the value.
    ///
    /// # Errors
    ///
    /// `OutOfMemory` where a growth was refused.
    pub fn to_value(self, alloc: Global) -> Result<Value, ReadError>
        ensures ok { IfOk result (λ value. view value ≡ node_data self.entry) }
        ensures err { IfErr result (λ e. e ≡ want_of_memory) }
    {
        match self.spot {
            Spot::Table(HeaderTable::Entries(table)) => Ok(Value::Table(table_of(alloc, table)?)),
            Spot::Table(HeaderTable::Section(table)) => {
                Ok(Value::Table(plain_table(alloc, table.rows)?))
            }
            Spot::Item(item) => Ok(value_of(alloc, item)?),
            Spot::Plain(plain) => Ok(plain_value(alloc, plain.value)?),
        }
    }

    /// A copy of the table, if it is one.
    ///
    /// # Errors
    ///
    /// `AllocError` where a growth was refused. A table without entries takes no memory.
    pub fn to_table(self, alloc: Global) -> Result<Option<values::Table>, AllocError>
        ensures table { IfOk result (λ copy. MatchOption copy (is_table (node_data self.entry) ≡ false)
            (λ table. table_of_members (entries table) ≡ node_data self.entry)) }
        ensures memory { IfErr result (λ _. HoldsAny (node_data self.entry)) }
    {
        match self.as_table() {
            Some(Fields::Table(table)) => Ok(Some(table_of(alloc, table)?)),
            Some(Fields::Rows(rows)) => Ok(Some(plain_table(alloc, rows)?)),
            Some(Fields::Section(rows, _)) => Ok(Some(plain_table(alloc, rows)?)),
            None => Ok(None),
        }
    }

    /// Whether headers made it: they name it, pass through it, or add elements to it.
    #[tactic(auto, using(crate::proofs::Nodes::MadeNodes::made_told, crate::proofs::Foretold::NodesForetold::made_foretold))]
    pub fn is_made(self) -> bool
        ensures is { result ≡ is_made self.entry }
        ensures foretold { (sections : List Section) (p : Path) → IsNodeAt sections p self.entry
            → made_by_headers (located sections) p ≡ true → result ≡ true }
        ensures told { (sections : List Section) (p : Path)
            → Foretold sections p self.entry (λ _. result ≡ made_by_headers (located sections) p) }
    {
        self.spot.is_made(self.count)
    }

    /// The name of its kind: `integer`, `float`, `boolean`, `string`, `array`, `inline table`, `dotted table` or
    /// `table`.
    #[tactic(auto, unfolding(crate::specs::Origin::name_of), using(crate::proofs::Foretold::NodesForetold::name_foretold))]
    pub fn type_name(self) -> &'static str
        ensures is { result.now ≡ name_of self.entry }
        ensures foretold { (sections : List Section) (p : Path)
            → Foretold sections p self.entry (λ node. result.now ≡ node.type_name) }
    {
        self.spot.type_name(self.count)
    }

    /// The byte offset where it begins: that of a value, of the first value of a dotted table, and of the last section
    /// where headers made it.
    #[tactic(auto, unfolding(crate::specs::Origin::start_of), using(crate::proofs::Foretold::NodesForetold::start_foretold))]
    pub fn start(self) -> Option<usize>
        ensures is { result ≡ start_of self.entry }
        ensures foretold { (sections : List Section) (p : Path)
            → Foretold sections p self.entry (λ node. result ≡ node.start) }
    {
        if self.is_made() {
            self.tree.headers.last_at()
        } else {
            Some(self.start)
        }
    }

    /// The byte offset that names it in errors: where it begins, but for an array literal the outer place.
    #[tactic(auto, unfolding(crate::specs::Origin::offset_of, crate::specs::Origin::start_of, crate::specs::Origin::outer_of), using(crate::proofs::Foretold::NodesForetold::place_foretold))]
    pub fn place(self) -> Option<usize>
        ensures is { result ≡ offset_of self.entry }
        ensures foretold { (sections : List Section) (p : Path)
            → Foretold sections p self.entry (λ node. result ≡ node.offset) }
    {
        match self.spot {
            Spot::Item(Item::Array(_)) => self.outer_place(),
            Spot::Item(Item::Plain(_)) => self.outer_place(),
            Spot::Plain(plain) if matches!(plain.value, Raw::Array(_)) => self.outer_place(),
            _ => self.start(),
        }
    }

    /// The byte offset of the nearest inline or dotted table around it, else that of the last section.
    #[tactic(auto, unfolding(crate::specs::Origin::outer_of), using(crate::proofs::Foretold::NodesForetold::outer_foretold))]
    pub fn outer_place(self) -> Option<usize>
        ensures is { result ≡ outer_of self.entry }
        ensures foretold { (sections : List Section) (p : Path)
            → Foretold sections p self.entry (λ node. result ≡ node.outer_offset) }
    {
        if self.is_made() {
            return self.tree.headers.last_at();
        }
        match self.outer {
            Some(outer) => Some(outer),
            None => self.tree.headers.last_at(),
        }
    }

    /// The keys that lead to it: those of the headers that made it, or those of its section and the first key of its
    /// row.
    ///
    /// # Errors
    ///
    /// `AllocError` where memory for the copies was refused.
    #[tactic(auto, unfolding(crate::specs::Origin::keys_of))]
    pub fn key_path(self, alloc: Global) -> Result<Vec<String>, AllocError>
        ensures is { IfOk result (λ path. map string_bytes path.items ≡ key_path_of self.entry) }
        ensures foretold { IfOk result (λ path. (sections : List Section) (p : Path)
            → Foretold sections p self.entry (λ node. map string_bytes path.items ≡ node.key_path)) }
    {
        match self.trail {
            Trail::Header(section) => {
                let mut path = key_texts(alloc, self.tree.headers.keys(section))?;
                path.truncate(self.count);
                Ok(path)
            }
            Trail::Row(section, first) => {
                let mut path = key_texts(alloc, self.tree.headers.keys(section))?;
                path.push(String::from_str(alloc, first)?)?;
                Ok(path)
            }
        }
    }
}

// The row with a key, if one of these has it.
#[inline(never)]
fn row_at<'t, 'de>(rows: &'t [Row<'de>], key: &str) -> Option<&'t Row<'de>>
    ensures { MatchOption result (is_among (map row_key rows.now) key.now ≡ false)
        (λ row. IsRowAt rows.now key.now row.now) }
{
    for row in rows {
        if row.key.as_str() == key {
            return Some(row);
        }
    }
    None
}
