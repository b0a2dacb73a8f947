//! What a section list is made of: sections, the keys of their headers, their rows, and values as they are written.
ghost use Rattle.std.specs.Prelude.{◌≡◌, [], take, IfOk};
ghost use Rattle.basic_toml_read.specs.declared.section.Row.{out-Row};
ghost use Rattle.basic_toml_read.specs.declared.section.Rows.{out-Rows};
ghost use Rattle.basic_toml_read.specs.SectionView.{section_of};
ghost use Rattle.basic_toml_read.specs.SectionsRead.{IsEmpty};

use crate::key_text::KeyText;
use crate::values::taken;
use basic_toml_value::Float;
use std::alloc::{AllocError, Global};
use std::mem;

/// A value as it is written (TOML v0.5.0, "Integer" to "Inline Table").
#[cycle(raws)]
#[derive(Drop)]
pub enum Raw<'de> {
    /// A whole number.
    Integer(i64),
    /// A float, as its canonical text.
    Float(Float),
    /// `true`. It stands apart from `false`: with a `bool` beside the tag, each move of a value would take more.
    True,
    /// `false`.
    False,
    /// A string without its delimiters, as it stands in the text.
    String(&'de str),
    /// A string without its delimiters, where escapes are resolved or line ends are made line feeds.
    Escaped(String),
    /// The elements of an array.
    Array(Vec<Element<'de>>),
    /// The rows of an inline table, each of one key.
    Inline(Vec<Row<'de>>),
    /// The rows of an inline table in which a key has a period.
    Dotted(Box<Rows<'de>>),
}

/// An element of an array, and the offset of its value.
#[cycle(raws)]
#[derive(Drop)]
pub struct Element<'de> {
    /// The byte offset of the value.
    pub offset: usize,
    // Where the value ends. It makes an element as large as a value of a `Table`, which then takes the memory that the
    // elements gave back.
    pub(crate) end: usize,
    /// The value.
    pub value: Raw<'de>,
}

/// The last key of a row, and the value.
#[cycle(raws)]
#[derive(Drop)]
pub struct Row<'de> {
    /// The last key.
    pub key: KeyText<'de>,
    /// The byte offset of that key.
    pub offset: usize,
    /// How many keys stand before it, each with a period after it.
    pub parents: usize,
    /// The byte offset of the value.
    pub start: usize,
    /// The value.
    pub value: Raw<'de>,
}

impl<'de> Row<'de> {
    /// Its own of the parents that the rows before it leave.
    #[inline]
    pub fn own_parents<'p>(&self, left: &'p [Key<'de>]) -> &'p [Key<'de>]
        ensures { result.now ≡ take (out-Row self.now).parents left.now }
    {
        &left[..self.parents.min(left.len())]
    }
}

/// The rows of a table (TOML v0.5.0, "Keys": dotted keys).
#[cycle(raws)]
#[derive(Drop)]
pub struct Rows<'de> {
    /// The keys with a period after them, of all rows in order: each row has as many of them as it has parents, after
    /// those of the rows before it.
    pub parents: Vec<Key<'de>>,
    /// The rows.
    pub rows: Vec<Row<'de>>,
}

impl<'de> Rows<'de> {
    /// No rows, which take no memory.
    pub fn none(alloc: Global) -> Rows<'de>
        ensures parents { (out-Rows result).parents.items ≡ [] }
        ensures rows { (out-Rows result).rows.items ≡ [] }
    {
        Rows {
            parents: Vec::new(alloc),
            rows: Vec::new(alloc),
        }
    }
}

/// A key, and its offset.
#[derive(Drop)]
pub struct Key<'de> {
    /// The key.
    pub text: KeyText<'de>,
    /// The byte offset of the key.
    pub offset: usize,
}

/// A header with its rows, or the rows before the first header (TOML v0.5.0, "Table" and "Array of Tables").
#[derive(Drop)]
pub struct Section<'de> {
    /// The byte offset of the header's first bracket, and 0 where there is no header.
    pub at: usize,
    /// Whether the header has double brackets.
    pub is_array: bool,
    /// The keys of the header.
    pub header: Vec<Key<'de>>,
    /// The rows.
    pub rows: Rows<'de>,
}

impl<'de> Section<'de> {
    /// A section without keys and rows, which takes no memory.
    pub fn empty(alloc: Global) -> Section<'de>
        ensures { IsEmpty result }
    {
        Section {
            at: 0,
            is_array: false,
            header: Vec::new(alloc),
            rows: Rows::none(alloc),
        }
    }

    /// Lets what is in it go, and keeps the memory of its vectors.
    pub fn clear(&mut self)
        ensures { IsEmpty self.new }
    {
        self.header.clear();
        self.rows.parents.clear();
        self.rows.rows.clear();
    }

    // Takes what is in it, in vectors that are as long as they have to be.
    pub(crate) fn take(&mut self) -> Result<Section<'de>, AllocError>
        ensures { IfOk result (λ section. (section_of section ≡ section_of self.old) × IsEmpty self.new) }
    {
        let alloc = *self.header.allocator();
        let parents = taken(&mut self.rows.parents, 0)?;
        let rows = taken(&mut self.rows.rows, 0)?;
        Ok(Section {
            at: self.at,
            is_array: self.is_array,
            header: mem::replace(&mut self.header, Vec::new(alloc)),
            rows: Rows { parents, rows },
        })
    }

    /// The byte offset of the header's first bracket, and 0 where there is no header.
    pub fn at(&self) -> usize
        ensures { result ≡ (section_of self.now).at }
    {
        self.at
    }

    /// The keys of the header. The rows before the first header have none.
    pub fn header(&self) -> &[Key<'de>]
        ensures { result.now ≡ self.now.header.items }
    {
        self.header.as_slice()
    }

    /// Whether the header has double brackets.
    pub fn is_array(&self) -> bool
        ensures { result ≡ (section_of self.now).is_array }
    {
        self.is_array
    }
}
