//! The nodes of what stands in a table.

ghost use Rattle.std.specs.Prelude.{◌≡◌, ◌==◌, true, false};
ghost use Rattle.basic_toml_read.specs.declared.section.Row.{out-Row};
ghost use Rattle.basic_toml_plain.specs.Plain.{is_plain, key_of};
ghost use Rattle.basic_toml_grow.specs.Simple.{child_of};
ghost use Rattle.basic_toml_tree.specs.Keys.{GoesOn, CountsOn, BeginsRow, HandsOn};
ghost use Rattle.basic_toml_tree.specs.Outer.{kept_below};
ghost use Rattle.basic_toml_tree.specs.Stands.{IsEntry, IsPlainRow};

use crate::node::Node;
use crate::plain_value::PlainValue;
use crate::spot::Spot;
use crate::trail::Trail;
use basic_toml_grow::Child;
use basic_toml_read::Row;

impl<'t, 'de> Node<'t, 'de> {
    // A node below this table at a key.
    #[inline(always)]
    pub(crate) fn below(self, key: &'t str, child: &'t Child<'de>) -> Node<'t, 'de>
        ensures { IsEntry self.entry key.now child.now result }
    {
        self.spot_below(key, Spot::of(child), child.start, child.section)
    }

    // The node of a row of this table, in which the rows of a section stand as they were read.
    #[inline(always)]
    pub(crate) fn section_row(self, row: &'t Row<'de>, section: usize) -> Node<'t, 'de>
        requires { is_plain (out-Row row.now).value 0 ≡ true }
        ensures { IsEntry self.entry (key_of row.now) (child_of section row.now) result }
    {
        let spot = Spot::Plain(PlainValue { value: &row.value });
        self.spot_below(row.key.as_str(), spot, row.start, section)
    }

    // A node below this table at a key, which begins at an offset, and which this section first mentioned.
    #[inline(always)]
    fn spot_below(
        self,
        key: &'t str,
        spot: Spot<'t, 'de>,
        start: usize,
        section: usize,
    ) -> Node<'t, 'de>
        ensures tree { result.tree ≡ self.entry.tree }
        ensures spot { result.spot ≡ spot.entry }
        ensures start { result.start ≡ start }
        ensures nested { (result.count == 0) ≡ false }
        ensures outer { result.outer ≡ kept_below self.entry }
        ensures keys { GoesOn self.entry result.spot result.trail }
        ensures row { BeginsRow self.entry key.now section result.spot result.trail }
        ensures handed { HandsOn self.entry result.trail }
        ensures count { CountsOn self.entry result.count }
    {
        let count = self.count.saturating_add(1);
        let outer = if self.is_made() {
            None
        } else {
            Some(self.start)
        };
        Node {
            tree: self.tree,
            spot,
            start,
            outer,
            count,
            trail: self.trail_below(key, section, spot),
        }
    }

    // The keys that lead to what stands at a key below this table, which this section first mentioned.
    #[inline(always)]
    fn trail_below(self, key: &'t str, section: usize, spot: Spot<'t, 'de>) -> Trail<'t>
        ensures keys { GoesOn self.entry spot.entry result }
        ensures row { BeginsRow self.entry key.now section spot.entry result }
        ensures handed { HandsOn self.entry result }
    {
        let Trail::Header(header) = self.trail else {
            return self.trail;
        };
        if let Some(latest) = spot.section() {
            return Trail::Header(latest);
        }
        let len = self.tree.headers.keys(section).len();
        if len < self.count {
            if let Some(first) = self.tree.headers.keys(header).get(len) {
                return Trail::Row(section, first.text.as_str());
            }
        }
        Trail::Row(section, key)
    }

    // The node of a row of this inline table.
    pub(crate) fn plain_row(self, row: &'t Row<'de>) -> Node<'t, 'de>
        requires { is_plain (out-Row row.now).value 0 ≡ true }
        ensures { IsPlainRow self.entry row.now result }
    {
        Node {
            spot: Spot::Plain(PlainValue { value: &row.value }),
            start: row.start,
            outer: Some(self.start),
            count: self.count.saturating_add(1),
            ..self
        }
    }
}
