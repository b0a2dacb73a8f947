//! Where a reading stands.
ghost use Rattle.std.specs.Prelude.{◌≡◌, ◌≤◌, None, Some, false, IfOk, IfSome, MatchBool, MatchOption, vec_len, slice_range, slice_get};
ghost use Rattle.basic_toml_serde.specs.Ahead.{item_at, container_at, value_at, text_at, key_at, BeginsAt, OpensArray, OpensTable, OpensFrom, GoesOn, GoesToKey, Leaves, IsAt, ComesBack};

use crate::source::Source;
use std::alloc::{AllocError, Global};

/// What is open around an open array or table: its place among the items, where what it holds begins, and which item
/// comes next there and which one ends it.
#[derive(Clone, Copy, Drop)]
struct Level {
    container: usize,
    start: usize,
    cursor: usize,
    end: usize,
}

/// A place to come back to.
#[derive(Clone, Copy, Drop)]
pub(crate) struct Mark {
    depth: usize,
    next: usize,
    cursor: usize,
    end: usize,
    at_key: bool,
}

/// Walks a tree in the order in which a type asks for its nodes.
///
/// Where an array or a table is opened, all that it holds becomes items, which go again where it ends.
#[derive(Drop)]
pub(crate) struct Walk<N> {
    list: Vec<N>,
    levels: Vec<Level>,
    /// The item that comes next, and whether its key comes before it.
    next: usize,
    at_key: bool,
    /// The item of what is open that comes next there, and the first behind it.
    cursor: usize,
    end: usize,
    /// Whether items stay to the end.
    keeps: bool,
}

impl<N: Source> Walk<N> {
    /// At the root.
    pub(crate) fn new(alloc: Global, root: N, keeps: bool) -> Result<Walk<N>, AllocError>
        ensures { IfOk result (λ walk. BeginsAt root walk) }
    {
        let mut list = Vec::new(alloc);
        list.push(root)?;
        Ok(Walk {
            list,
            levels: Vec::new(alloc),
            next: 0,
            at_key: false,
            cursor: 1,
            end: 1,
            keeps,
        })
    }

    /// The place of the item that comes next among the items.
    #[inline(always)]
    pub(crate) fn position(&self) -> usize
        ensures { result ≡ self.now.next }
    {
        self.next
    }

    /// The item at a place.
    pub(crate) fn item(&self, position: usize) -> Option<N>
        ensures { result ≡ slice_get self.now.list.items position }
    {
        self.list.get(position).copied()
    }

    /// The item that comes next.
    #[inline(always)]
    pub(crate) fn peek(&self) -> Option<N>
        ensures { result ≡ item_at self.now }
    {
        self.list.get(self.next).copied()
    }

    /// Whether the key of the item that comes next comes before it.
    #[inline(always)]
    pub(crate) fn is_at_key(&self) -> bool
        ensures { result ≡ self.now.at_key }
    {
        self.at_key
    }

    /// Takes the key that comes next, if one does: then its value comes next.
    #[inline(always)]
    pub(crate) fn pass_key(&mut self)
        ensures { self.new ≡ record self.old { at_key = false } }
    {
        self.at_key = false;
    }

    /// The value that comes next, where no key comes before it.
    #[inline(always)]
    pub(crate) fn peek_value(&self) -> Option<N>
        ensures { result ≡ value_at self.now }
    {
        if self.at_key {
            return None;
        }
        self.peek()
    }

    /// The text that comes next, that of a key or that of a string.
    #[inline(always)]
    pub(crate) fn peek_text(&self) -> Option<&str>
        ensures { MatchOption result (text_at N.key_of N.data_of self.now ≡ None)
            (λ text. text_at N.key_of N.data_of self.now ≡ Some text.now) }
    {
        let Some(item) = self.list.get(self.next) else {
            return None;
        };
        if self.at_key {
            item.key()
        } else {
            item.string()
        }
    }

    /// The key that leads to what comes next.
    #[inline(always)]
    pub(crate) fn peek_key(&self) -> Option<&str>
        ensures { MatchOption result (key_at N.key_of self.now ≡ None)
            (λ key. key_at N.key_of self.now ≡ Some key.now) }
    {
        let Some(item) = self.list.get(self.next) else {
            return None;
        };
        item.key()
    }

    /// Where the string that comes next begins and ends in the document, if it stands there as it is.
    pub(crate) fn peek_span(&self, input: &[u8]) -> Option<(usize, usize)>
        ensures { IfSome result
            (λ span. text_at N.key_of N.data_of self.now ≡ Some (slice_range input.now span.0 span.1)) }
    {
        if self.at_key {
            return None;
        }
        let Some(item) = self.list.get(self.next) else {
            return None;
        };
        item.span(input)
    }

    /// Opens the array that comes next, which is this one.
    pub(crate) fn open_array(&mut self, array: N) -> Result<(), AllocError>
        ensures { IfOk result (λ _. OpensArray N.key_of N.data_of array self.old self.new) }
    {
        let start = self.list.len();
        array.add_elements(&mut self.list)?;
        self.open_from(start)
    }

    /// Opens the table that comes next, which is this one.
    #[inline(always)]
    pub(crate) fn open_table(&mut self, table: N) -> Result<(), AllocError>
        ensures { IfOk result (λ _. OpensTable N.key_of N.data_of table self.old self.new) }
    {
        let start = self.list.len();
        table.add_entries(&mut self.list)?;
        self.open_from(start)
    }

    // Opens what comes next, which holds the items from this one on.
    #[inline(always)]
    fn open_from(&mut self, start: usize) -> Result<(), AllocError>
        ensures { IfOk result (λ _. OpensFrom start self.old self.new) }
    {
        self.levels.push(Level {
            container: self.next,
            start,
            cursor: self.cursor,
            end: self.end,
        })?;
        self.cursor = start;
        self.end = self.list.len();
        Ok(())
    }

    /// Goes to the next item of what is open, if one is left.
    #[inline(always)]
    pub(crate) fn advance(&mut self) -> bool
        ensures { MatchBool result (GoesOn self.old self.new)
            ((self.old.end ≤ self.old.cursor) × (self.new ≡ self.old)) }
    {
        let at = self.cursor;
        if at >= self.end {
            return false;
        }
        self.cursor = at.saturating_add(1);
        self.next = at;
        true
    }

    /// The same, and its key comes before it.
    pub(crate) fn advance_to_key(&mut self) -> bool
        ensures { MatchBool result (GoesToKey self.old self.new)
            ((self.old.end ≤ self.old.cursor) × (self.new ≡ self.old)) }
    {
        if !self.advance() {
            return false;
        }
        self.at_key = true;
        true
    }

    /// Leaves what is open, and stands at it again.
    pub(crate) fn leave(&mut self)
        ensures { Leaves self.old self.new }
    {
        if let Some(level) = self.levels.pop() {
            self.next = level.container;
            self.cursor = level.cursor;
            self.end = level.end;
            if !self.keeps {
                self.list.truncate(level.start);
            }
        }
    }

    /// The table or the array around what was read last, or the root.
    pub(crate) fn container(&self) -> Option<N>
        ensures { result ≡ container_at self.now }
    {
        let at = match self.levels.last() {
            Some(level) => level.container,
            None => self.next,
        };
        self.list.get(at).copied()
    }

    pub(crate) fn mark(&self) -> Mark
        ensures { IsAt self.now result }
    {
        Mark {
            depth: self.levels.len(),
            next: self.next,
            cursor: self.cursor,
            end: self.end,
            at_key: self.at_key,
        }
    }

    pub(crate) fn rewind(&mut self, mark: Mark)
        ensures { ComesBack mark self.old self.new }
    {
        self.levels.truncate(mark.depth);
        if !self.keeps {
            self.list.truncate(mark.end);
        }
        self.next = mark.next;
        self.cursor = mark.cursor;
        self.end = mark.end;
        self.at_key = mark.at_key;
    }
}
