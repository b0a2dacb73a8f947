//! Puts the rows of a section into its table: their values, and the tables that their dotted keys lead through.

ghost use Rattle.std.specs.Prelude.{◌≡◌, ◌≤◌, ◌<◌, [], ◌∷◌, None, true, false, map};
ghost use Rattle.std.specs.Prelude.{IfOk, IfErr};
ghost use Rattle.basic_toml_value.specs.Nesting.{nesting_limit};
ghost use Rattle.basic_toml_grammar.specs.Sections.{Raw as spec_raw};
ghost use Rattle.basic_toml_read.specs.SectionView.{raw_of, rows_seen, rows_view, elements_view, NoneLeft};
ghost use Rattle.basic_toml_plain.specs.Plain.{are_all_plain as all_plain};
ghost use Rattle.basic_toml_grow.specs.declared.item.Table.{out-Table};
ghost use Rattle.basic_toml_grow.specs.Origins.{child_origins, entry};
ghost use Rattle.basic_toml_grow.specs.Origins.{value_origins, elements_origins};
ghost use Rattle.basic_toml_grow.specs.Origins.{dotted_of, table_origin};
ghost use Rattle.basic_toml_grow.specs.Rows.{Finishes, FinishesAll, one_row};
ghost use Rattle.basic_toml_grow.specs.Clash.{NamesObstacle};
ghost use Rattle.basic_toml_grow.specs.Obstacles.{value_obstacle, elements_obstacle};
ghost use Rattle.basic_toml_grow.specs.Takes.{ExtendsBy, MakesChild, TakesRow, TakesRows};

use crate::clash::Clash;
use crate::item::{Child, Item, Table};
use crate::met::{Met, what_is_met};
use crate::row_clash::{row_clash, value_clash};
use crate::simple::{RowKeys, with_first_rows, with_rows};
use basic_toml_index::Index;
use basic_toml_plain::{
    ItemsLeft, PlainArray, PlainTable, are_all_plain, are_few_simple, are_plain, drain,
};
use basic_toml_read::{Element, Key, Raw, Row, Rows};
use basic_toml_value::NESTING_LIMIT;
use std::alloc::Global;
use std::mem;

// How many times a value is looked through at most for whether it is plain: a deep one is not looked through anew at
// each of its levels.
const LOOKS: usize = 4;

// Of so many rows an index of the keys is made at once, by sorting them, where each has one key and a plain value.
const MANY: usize = 64;

// Puts a row's value into a table, by the keys that periods follow, and then its last key. It is inlined, since most
// rows have one key.
#[cycle(leading)]
#[inline(always)]
fn enter_row<'de>(
    alloc: Global,
    table: &mut Table<'de>,
    keys: &[Key<'de>],
    last: &str,
    child: Child<'de>,
) -> Result<(), Met>
    ensures { TakesRow keys.entry.now last.entry.now child.entry table.old table.new result }
{
    match keys.split_first() {
        None => enter_last(table, last, child),
        Some((key, rest)) => enter_dotted(alloc, table, key, rest, last, child),
    }
}

// Puts a row's value into a table by a key that a period follows, and by the keys after it.
#[cycle(leading)]
#[inline(never)]
fn enter_dotted<'de>(
    alloc: Global,
    table: &mut Table<'de>,
    key: &Key<'de>,
    rest: &[Key<'de>],
    last: &str,
    child: Child<'de>,
) -> Result<(), Met>
    ensures { TakesRow (key.entry.now ∷ rest.entry.now) last.entry.now child.entry table.old table.new result }
{
    let start = child.start;
    let section = child.section;
    let place = table.entries.enter_again(key.text.as_str(), |last| {
        // As much room as the table before it takes, since such tables are often alike.
        let room = match last {
            Some(
                Child {
                    item: Item::Table(table),
                    ..
                },
            ) => table.entries.len(),
            _ => 1,
        };
        Child::table(alloc, start, section, room)
    })?;
    let there = table.entries.value_mut(place.position);
    extend(alloc, there, rest, last, child)
}

// Puts a row's value into a table at its last key.
#[inline(always)]
fn enter_last<'de>(table: &mut Table<'de>, last: &str, child: Child<'de>) -> Result<(), Met>
    ensures { TakesRow [] last.entry.now child.entry table.old table.new result }
{
    let place = table.entries.enter_value(last, child)?;
    if place.is_new {
        return Ok(());
    }
    Err(what_is_met(table.entries.value(place.position)))
}

// Puts the rest of a row into the table at a key that a period follows.
#[cycle(leading)]
#[inline(always)]
fn extend<'de>(
    alloc: Global,
    there: &mut Child<'de>,
    keys: &[Key<'de>],
    last: &str,
    child: Child<'de>,
) -> Result<(), Met>
    ensures { ExtendsBy keys.entry.now last.entry.now child.entry there.old there.new result }
{
    match &mut there.item {
        Item::Table(table) => {
            if table.named {
                return Err(Met::Header(keys.len() + 2));
            }
            table.dotted = true;
            enter_row(alloc, table, keys, last, child)
        }
        _other => Err(Met::Header(keys.len() + 2)),
    }
}

// The room that the rows of one key want, each of which makes an entry of its own.
fn room_for(rows: &[Row<'_>]) -> usize {
    let mut room = 0;
    for row in rows {
        if row.parents == 0 {
            room += 1;
        }
    }
    room
}

/// Puts the rows of a header into its table, in order. Into a table without entries a few simple ones go at once, and
/// their vector keeps its room. It is inlined, since most rows are simple.
#[inline(always)]
pub(crate) fn take_rows<'de>(
    alloc: Global,
    table: &mut Table<'de>,
    rows: &mut Rows<'de>,
    section: usize,
    level: usize,
) -> Result<(), Clash>
    requires { level ≤ nesting_limit }
    ensures takes { TakesRows (rows_view rows.old) section level table.old table.new result }
    ensures taken { IfOk result (λ _. NoneLeft rows.new) }
{
    if rows.rows.is_empty() && rows.parents.is_empty() {
        return Ok(());
    }
    if rows.parents.is_empty()
        && table.entries.is_empty()
        && are_few_simple(rows.rows.as_slice(), level)
    {
        return Ok(with_rows(alloc, table, &mut rows.rows, section)?);
    }
    let rows = mem::replace(rows, Rows::none(alloc));
    take_other_rows(alloc, table, rows, section, level)
}

// Puts rows that are not few and simple, or come beside entries, into the table of a header. It is not inlined, so that
// few simple rows do without its room.
#[inline(never)]
fn take_other_rows<'de>(
    alloc: Global,
    table: &mut Table<'de>,
    rows: Rows<'de>,
    section: usize,
    level: usize,
) -> Result<(), Clash>
    requires { level ≤ nesting_limit }
    ensures { TakesRows (rows_view rows.entry) section level table.old table.new result }
{
    take_any_rows(alloc, table, rows, section, level, LOOKS)
}

// Puts rows into a table of a level, in order: of many plain ones those before a key repeats at once, and others one by
// one. What is met is the same, however many looks are left for whether a value is plain. It is inlined, so that each
// level of inline tables takes one frame.
#[cycle(finishing)]
#[inline(always)]
fn take_any_rows<'de>(
    alloc: Global,
    table: &mut Table<'de>,
    rows: Rows<'de>,
    section: usize,
    level: usize,
    looks: usize,
) -> Result<(), Clash>
    requires { level ≤ nesting_limit }
    ensures { TakesRows (rows_view rows.entry) section level table.old table.new result }
{
    let Rows { parents, rows } = rows;
    if rows.len() >= MANY
        && looks > 0
        && parents.is_empty()
        && table.entries.is_empty()
        && are_all_plain(rows.as_slice(), level)
    {
        return take_many_rows(alloc, table, rows, section, level, looks);
    }
    table.entries.reserve(room_for(rows.as_slice()))?;
    enter_rows(
        alloc,
        table,
        parents.as_slice(),
        drain(rows),
        section,
        level,
        looks.saturating_sub(1),
    )
}

// Puts many rows, each of one key and a plain value, into a table of a level without entries: those before the first
// that has the key of one before it at once, and the others one by one. It is not inlined, since inline tables within
// inline tables do without its room.
#[cycle(finishing)]
#[inline(never)]
fn take_many_rows<'de>(
    alloc: Global,
    table: &mut Table<'de>,
    rows: Vec<Row<'de>>,
    section: usize,
    level: usize,
    looks: usize,
) -> Result<(), Clash>
    requires level { level ≤ nesting_limit }
    requires plain { all_plain level rows.items ≡ true }
    requires none { (out-Table table.old).entries ≡ [] }
    ensures { TakesRows (rows_seen [] rows.entry.items) section level table.old table.new result }
{
    let keys = RowKeys {
        rows: rows.as_slice(),
    };
    let (index, count) = Index::until_repeat(alloc, &keys)?;
    let mut rows = drain(rows);
    with_first_rows(alloc, table, &mut rows, section, index, count)?;
    enter_rows(alloc, table, &[], rows, section, level, looks)
}

// Puts the rows that are left into a table of a level, one by one.
#[cycle(finishing)]
#[inline(never)]
fn enter_rows<'de>(
    alloc: Global,
    table: &mut Table<'de>,
    parents: &[Key<'de>],
    rows: ItemsLeft<Row<'de>>,
    section: usize,
    level: usize,
    looks: usize,
) -> Result<(), Clash>
    requires { level ≤ nesting_limit }
    ensures { TakesRows (rows_seen parents.entry.now rows.entry) section level table.old table.new result }
{
    let mut left = parents;
    for row in rows {
        let own = row.own_parents(left);
        enter_value(alloc, table, own, row, section, level, looks)?;
        left = &left[own.len()..];
    }
    Ok(())
}

// Puts a row with these keys before its last one into a table of a level. It is inlined, so that a row is not moved.
#[cycle(finishing)]
#[inline(always)]
fn enter_value<'de>(
    alloc: Global,
    table: &mut Table<'de>,
    keys: &[Key<'de>],
    row: Row<'de>,
    section: usize,
    level: usize,
    looks: usize,
) -> Result<(), Clash>
    requires level { level ≤ nesting_limit }
    ensures { TakesRows (one_row keys.entry.now row.entry) section level table.old table.new result }
{
    if keys.len() > NESTING_LIMIT - level {
        return Err(Clash::Deep);
    }
    let Row {
        key,
        offset,
        parents: _,
        start,
        value,
    } = row;
    match row_value(alloc, value, start, section, level + keys.len(), looks) {
        Err(clash) => Err(value_clash(alloc, clash, keys, key.as_str())?),
        Ok(child) => match enter_row(alloc, table, keys, key.as_str(), child) {
            Ok(()) => Ok(()),
            Err(met) => Err(row_clash(alloc, met, keys, key.as_str(), offset)?),
        },
    }
}

// The item of the value of a row, which begins at an offset, in a table of a level. An array or an inline table of
// plain values is kept as it was read. What stands within one that is not plain is looked through once less. The item of
// any other value is made at one place, since it is inlined there: at each of the arms it would take more of the stack.
#[cycle(finishing)]
#[inline(always)]
fn row_value<'de>(
    alloc: Global,
    value: Raw<'de>,
    start: usize,
    section: usize,
    level: usize,
    looks: usize,
) -> Result<Child<'de>, Clash>
    requires { level ≤ nesting_limit }
    ensures { MakesChild (raw_of value.entry) start section level result }
{
    let value = match value {
        Raw::Array(elements) => {
            if looks > 0 && level < NESTING_LIMIT && are_plain(elements.as_slice(), level + 1) {
                let array = PlainArray::new(elements);
                return Ok(Child::at(start, section, Item::Plain(array)));
            }
            Raw::Array(elements)
        }
        Raw::Inline(rows) => {
            if looks > 0 && level < NESTING_LIMIT && are_few_simple(rows.as_slice(), level + 1) {
                let table = PlainTable::new(rows);
                return Ok(Child::at(start, section, Item::Rows(table)));
            }
            Raw::Inline(rows)
        }
        value => value,
    };
    child_of(alloc, value, start, section, level, looks.saturating_sub(1))
}

// The item of a value that begins at an offset, within a table or an array of a level. It is inlined, since most
// values are scalars.
#[cycle(finishing)]
#[inline(always)]
fn child_of<'de>(
    alloc: Global,
    value: Raw<'de>,
    start: usize,
    section: usize,
    level: usize,
    looks: usize,
) -> Result<Child<'de>, Clash>
    requires { level ≤ nesting_limit }
    ensures { MakesChild (raw_of value.entry) start section level result }
{
    let rows = match value {
        Raw::Integer(number) => return Ok(Child::at(start, section, Item::Integer(number))),
        Raw::Float(float) => return Ok(Child::at(start, section, Item::Float(float))),
        Raw::True => return Ok(Child::at(start, section, Item::True)),
        Raw::False => return Ok(Child::at(start, section, Item::False)),
        Raw::String(text) => return Ok(Child::at(start, section, Item::String(text))),
        Raw::Escaped(text) => return Ok(Child::at(start, section, Item::Escaped(text))),
        Raw::Array(elements) => {
            if level >= NESTING_LIMIT {
                return Err(Clash::Deep);
            }
            let children = children_of(alloc, elements, section, level + 1, looks)?;
            return Ok(Child::at(start, section, Item::Array(children)));
        }
        Raw::Inline(rows) => Rows {
            parents: Vec::new(alloc),
            rows,
        },
        Raw::Dotted(rows) => Box::into_inner(rows),
    };
    inline_child(alloc, rows, start, section, level, looks)
}

// The item of an inline table of rows that begins at an offset, within a table or an array of a level.
#[cycle(finishing)]
#[inline(always)]
fn inline_child<'de>(
    alloc: Global,
    rows: Rows<'de>,
    start: usize,
    section: usize,
    level: usize,
    looks: usize,
) -> Result<Child<'de>, Clash>
    requires { level ≤ nesting_limit }
    ensures { MakesChild (spec_raw.inline (rows_view rows.entry)) start section level result }
{
    if level >= NESTING_LIMIT {
        return Err(Clash::Deep);
    }
    let mut table = Table::new(alloc)?;
    take_any_rows(alloc, &mut *table, rows, section, level + 1, looks)?;
    Ok(Child::at(start, section, Item::Inline(table)))
}

// The items of the values of elements, within an array of a level.
#[cycle(finishing)]
#[inline(never)]
fn children_of<'de>(
    alloc: Global,
    elements: Vec<Element<'de>>,
    section: usize,
    level: usize,
    looks: usize,
) -> Result<Vec<Child<'de>>, Clash>
    requires { level ≤ nesting_limit }
    ensures finished { FinishesAll (elements_view elements.entry.items) level result }
    ensures named { IfErr result (λ clash.
        NamesObstacle (elements_obstacle level (elements_view elements.entry.items)) clash) }
    ensures origins { IfOk result (λ children. map child_origins children.items
        ≡ elements_origins section (elements_view elements.entry.items)) }
{
    let mut children = Vec::with_capacity(alloc, elements.len())?;
    for element in drain(elements) {
        let offset = element.offset;
        let child = child_of(alloc, element.value, offset, section, level, looks)?;
        children.push_reserved(child);
    }
    Ok(children)
}
