//! Puts a section into the tree: the way of its header, and the table that the header names.

ghost use Rattle.std.specs.Prelude.{◌≡◌, ◌≤◌, ◌+◌, true, false, [], ◌∷◌, IfOk, IfErr};
ghost use Rattle.basic_toml_value.specs.Nesting.{nesting_limit};
ghost use Rattle.basic_toml_grammar.specs.Sections.{Rows as spec_rows};
ghost use Rattle.basic_toml_grammar.specs.Trie.{put_element};
ghost use Rattle.basic_toml_read.specs.SectionView.{NoneLeft, header_texts, rows_view};
ghost use Rattle.basic_toml_grow.specs.Clash.{NamesObstacle};
ghost use Rattle.basic_toml_grow.specs.Item.{table_trie, item_trie, is_section};
ghost use Rattle.basic_toml_grow.specs.Origins.{table_within, or_else, rows_origins};
ghost use Rattle.basic_toml_grow.specs.Ways.{way, GrowsAlong, MarksTable};
ghost use Rattle.basic_toml_grow.specs.Headers.{EntersHeader, IsKeptOut, IsNew, HasOneMore, is_last};
ghost use Rattle.basic_toml_grow.specs.Headers.{table_clash};
ghost use Rattle.basic_toml_grow.specs.declared.item.Child.{out-Child};
ghost use Rattle.basic_toml_grow.specs.declared.item.Table.{out-Table};
ghost use Rattle.basic_toml_grow.specs.Obstacles.{keys_obstacle, table_obstacle, element_obstacle};
ghost use Rattle.basic_toml_grow.specs.Takes.{TakesHeader, TakesHeaderAtKey, TakesHeaderInItem};

use crate::clash::Clash;
use crate::item::{Child, Item, Table};
use crate::rows::take_rows;
use basic_toml_plain::{PlainTable, PlainTables, are_few_simple};
use basic_toml_read::{Key, Rows, Section};
use basic_toml_value::NESTING_LIMIT;
use std::alloc::Global;
use std::mem;

/// Enters a section, which has this number in its list, into the table of a document (TOML v0.5.0, "Table" and "Array
/// of Tables"). Its rows go into the table, so that none is left in the section; its header stays, as the keys of nodes
/// are read from it.
///
/// # Errors
///
/// The [`Clash`] that the section meets first: what stands in the table is in its way, or two of its rows clash. It is
/// `Deep` where a level above [`NESTING_LIMIT`] is met first, and `Memory` where memory is refused. At each table and
/// array on the header's way, each bracket and each row, the level comes before what stands there. What stands in the
/// table then is not said.
///
/// `basic_toml_tree` calls it for each section of a list.
pub fn enter_section<'de>(
    alloc: Global,
    root: &mut Table<'de>,
    section: &mut Section<'de>,
    number: usize,
) -> Result<(), Clash>
    ensures entered { EntersHeader section.old.is_array (rows_view section.old.rows)
        (header_texts section.old.header.items) 1 (table_trie root.old) (table_trie root.new) result }
    ensures named { let keys = header_texts section.old.header.items in
        let met = keys_obstacle section.old.is_array (rows_view section.old.rows) keys 1 (table_trie root.old) in
        IfErr result (λ clash. NamesObstacle met clash) }
    ensures origins { let keys = header_texts section.old.header.items in
        let rows = rows_origins number (rows_view section.old.rows) in
        IfOk result (λ _. GrowsAlong (way section.old.is_array keys (table_trie root.old)) rows
        (table_within root.old).below (table_within root.new).below) }
    ensures marks { let keys = header_texts section.old.header.items in
        IfOk result (λ _. MarksTable number (way section.old.is_array keys (table_trie root.old))
        (table_within root.new)) }
    ensures taken { IfOk result (λ _. NoneLeft section.new.rows) }
    ensures at { section.new.at ≡ section.old.at }
    ensures is_array { section.new.is_array ≡ section.old.is_array }
    ensures header { section.new.header ≡ section.old.header }
{
    let is_array = section.is_array;
    let header = section.header.as_slice();
    enter_header(alloc, root, header, is_array, &mut section.rows, number, 1)
}

// The table at a level that a header names takes the rows of its section.
#[inline(always)]
fn open<'de>(
    alloc: Global,
    table: &mut Table<'de>,
    rows: &mut Rows<'de>,
    number: usize,
    level: usize,
) -> Result<(), Clash>
    requires { level ≤ nesting_limit + 2 }
    ensures entered { EntersHeader false (rows_view rows.old) [] level (table_trie table.old)
        (table_trie table.new) result }
    ensures named { let met = table_obstacle level (rows_view rows.old) (table_trie table.old) in
        IfErr result (λ clash. NamesObstacle met clash) }
    ensures origins { IfOk result (λ _. (table_within table.new).below
        ≡ or_else (table_within table.old).below (rows_origins number (rows_view rows.old))) }
    ensures marks { IfOk result (λ _. MarksTable number [] (table_within table.new)) }
    ensures taken { IfOk result (λ _. NoneLeft rows.new) }
{
    if level > NESTING_LIMIT {
        return Err(Clash::Deep);
    }
    if table.dotted {
        return Err(Clash::Header(1));
    }
    if table.named {
        return Err(Clash::Named);
    }
    table.named = true;
    table.section = number;
    take_rows(alloc, table, rows, number, level)
}

// Goes on from a table of a level by the keys of a header that are left. It is inlined, so that no call is made where
// none is left.
#[cycle(walk)]
#[inline(always)]
fn enter_header<'de>(
    alloc: Global,
    table: &mut Table<'de>,
    keys: &[Key<'de>],
    is_array: bool,
    rows: &mut Rows<'de>,
    number: usize,
    level: usize,
) -> Result<(), Clash>
    requires { level ≤ nesting_limit + 2 }
    ensures takes { TakesHeader is_array (rows_view rows.old) (header_texts keys.now) level number
        table.old table.new result }
    ensures taken { IfOk result (λ _. NoneLeft rows.new) }
{
    match keys.split_first() {
        None => open(alloc, table, rows, number, level),
        Some((key, rest)) => {
            if !rest.is_empty() {
                enter_below(alloc, table, key, rest, is_array, rows, number, level)
            } else if is_array {
                enter_element(alloc, table, key, rows, number, level)
            } else {
                enter_last(alloc, table, key, rows, number, level)
            }
        }
    }
}

// Goes on from a table of a level by the last key of a header, which names a table. Where the table is new and the rows
// are few and simple, they stay as they were read.
#[cycle(walk)]
#[inline(never)]
fn enter_last<'de>(
    alloc: Global,
    table: &mut Table<'de>,
    key: &Key<'de>,
    rows: &mut Rows<'de>,
    number: usize,
    level: usize,
) -> Result<(), Clash>
    requires { level ≤ nesting_limit + 2 }
    ensures takes { TakesHeader false (rows_view rows.old) (header_texts (key.now ∷ [])) level number
        table.old table.new result }
    ensures taken { IfOk result (λ _. NoneLeft rows.new) }
{
    if level >= NESTING_LIMIT
        || !rows.parents.is_empty()
        || !are_few_simple(rows.rows.as_slice(), level + 1)
    {
        return enter_below(alloc, table, key, &[], false, rows, number, level);
    }
    let kept = rows.rows.split_off(0)?;
    let place = table.entries.enter(key.text.as_str(), |_| {
        let rows = Vec::new(alloc);
        Ok(Child::at(0, number, Item::Section(PlainTable::new(rows))))
    })?;
    table.passed = true;
    table.section = number;
    let there = table.entries.value_mut(place.position);
    if place.is_new {
        *there = Child::at(0, number, Item::Section(PlainTable::new(kept)));
        return Ok(());
    }
    rows.rows = kept;
    enter_at(alloc, there, place.is_new, &[], false, rows, number, level)
}

// Goes on from a table of a level by the last key of a header, which adds a table to an array of tables. Where all of
// the array are of few simple rows, they stay as they were read.
#[cycle(walk)]
#[inline(never)]
fn enter_element<'de>(
    alloc: Global,
    table: &mut Table<'de>,
    key: &Key<'de>,
    rows: &mut Rows<'de>,
    number: usize,
    level: usize,
) -> Result<(), Clash>
    requires { level ≤ nesting_limit + 2 }
    ensures takes { TakesHeader true (rows_view rows.old) (header_texts (key.now ∷ [])) level number
        table.old table.new result }
    ensures taken { IfOk result (λ _. NoneLeft rows.new) }
{
    if level + 2 > NESTING_LIMIT
        || !rows.parents.is_empty()
        || !are_few_simple(rows.rows.as_slice(), level + 2)
    {
        return enter_below(alloc, table, key, &[], true, rows, number, level);
    }
    let place = table.entries.enter(key.text.as_str(), |_| {
        let rows = Vec::new(alloc);
        Ok(Child::at(0, number, Item::Section(PlainTable::new(rows))))
    })?;
    table.passed = true;
    table.section = number;
    let there = table.entries.value_mut(place.position);
    if place.is_new {
        let tables = PlainTables::new(alloc, &mut rows.rows, number)?;
        *there = Child::at(0, 0, Item::Sections(tables));
        return Ok(());
    }
    if let Item::Sections(tables) = &mut there.item {
        return Ok(tables.push(&mut rows.rows, number)?);
    }
    enter_at(alloc, there, false, &[], true, rows, number, level)
}

// Goes on from a table of a level by a key of a header, and by the keys after it.
#[cycle(walk)]
#[inline(never)]
fn enter_below<'de>(
    alloc: Global,
    table: &mut Table<'de>,
    key: &Key<'de>,
    rest: &[Key<'de>],
    is_array: bool,
    rows: &mut Rows<'de>,
    number: usize,
    level: usize,
) -> Result<(), Clash>
    requires { level ≤ nesting_limit + 2 }
    ensures takes { TakesHeader is_array (rows_view rows.old) (header_texts (key.now ∷ rest.now)) level number
        table.old table.new result }
    ensures taken { IfOk result (λ _. NoneLeft rows.new) }
{
    if level > NESTING_LIMIT {
        return Err(Clash::Deep);
    }
    let ends_array = is_array && rest.is_empty();
    let place = table
        .entries
        .enter(key.text.as_str(), |_| Child::of_header(alloc, ends_array))?;
    table.passed = true;
    table.section = number;
    let there = table.entries.value_mut(place.position);
    enter_at(
        alloc,
        there,
        place.is_new,
        rest,
        is_array,
        rows,
        number,
        level,
    )
}

// Goes on from what stands at a key in a table of a level, which may be new: by the keys that are left, and where the
// header of an array ends there, into one more table of the array.
#[cycle(walk)]
#[inline(always)]
fn enter_at<'de>(
    alloc: Global,
    there: &mut Child<'de>,
    is_new: bool,
    rest: &[Key<'de>],
    is_array: bool,
    rows: &mut Rows<'de>,
    number: usize,
    level: usize,
) -> Result<(), Clash>
    requires level { level ≤ nesting_limit }
    requires new { is_new ≡ true → IsNew (is_last is_array (header_texts rest.now)) (out-Child there.old).item }
    ensures takes { TakesHeaderAtKey is_array (rows_view rows.old) (header_texts rest.now) level number is_new
        there.old there.new result }
    ensures taken { IfOk result (λ _. NoneLeft rows.new) }
{
    there.unfold(alloc)?;
    if is_array && rest.is_empty() && !is_new {
        add_table(alloc, &mut there.item, level)?;
    }
    enter_item(alloc, &mut there.item, rest, is_array, rows, number, level)
}

// The clash of an array of tables with a table that stands at its key.
#[cold]
fn table_in_the_way(table: &Table<'_>) -> Clash
    ensures { result ≡ table_clash (out-Table table.now).named (out-Table table.now).dotted }
{
    if table.dotted {
        Clash::Header(1)
    } else if table.named {
        Clash::Named
    } else {
        Clash::Redefined
    }
}

// Adds a table without entries to an array of tables in a table of a level.
#[inline(always)]
fn add_table(alloc: Global, there: &mut Item<'_>, level: usize) -> Result<(), Clash>
    requires level { level ≤ nesting_limit }
    requires unfolded { is_section there.old ≡ false }
    ensures more { IfOk result (λ _. HasOneMore there.old there.new) }
    ensures out { IfErr result (λ clash. (rows : spec_rows) →
        IsKeptOut (put_element rows (item_trie there.old)) rows (level + 2) clash) }
    ensures named { IfErr result (λ clash. (rows : spec_rows) →
        NamesObstacle (element_obstacle (level + 1) rows (item_trie there.old)) clash) }
{
    if level >= NESTING_LIMIT {
        return Err(Clash::Deep);
    }
    match there {
        Item::Tables(tables) => {
            tables.0.try_reserve(1)?;
            let last = mem::replace(&mut tables.1, Table::empty(alloc));
            tables.0.push_reserved(last);
            Ok(())
        }
        Item::Table(table) => Err(table_in_the_way(table)),
        _other => Err(Clash::Header(1)),
    }
}

// Goes on from what stands at a key in a table of a level by the keys that are left after it.
#[cycle(walk)]
#[inline(always)]
fn enter_item<'de>(
    alloc: Global,
    there: &mut Item<'de>,
    rest: &[Key<'de>],
    is_array: bool,
    rows: &mut Rows<'de>,
    number: usize,
    level: usize,
) -> Result<(), Clash>
    requires level { level ≤ nesting_limit }
    requires unfolded { is_section there.old ≡ false }
    ensures takes { TakesHeaderInItem is_array (rows_view rows.old) (header_texts rest.now) level number
        there.old there.new result }
    ensures taken { IfOk result (λ _. NoneLeft rows.new) }
{
    match there {
        Item::Table(table) => enter_header(alloc, table, rest, is_array, rows, number, level + 1),
        Item::Tables(tables) => {
            enter_header(
                alloc,
                &mut tables.1,
                rest,
                is_array,
                rows,
                number,
                level + 2,
            )
        }
        _other => {
            if level >= NESTING_LIMIT {
                return Err(Clash::Deep);
            }
            Err(Clash::Header(rest.len() + 1))
        }
    }
}
