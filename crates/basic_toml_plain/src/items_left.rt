//! The items of a vector one after another, and its memory given back on the way.

ghost use Rattle.std.specs.Prelude.{◌≡◌, []};
ghost use Rattle.std.specs.Iterator.{YieldsFirst, item_count};

use std::marker::Model;

// The room of so many items is given back at once, since each shrink may move what is left.
const GIVEN_BACK: usize = 1024;

/// The items that are left of a vector, in order.
#[derive(Drop)]
pub struct ItemsLeft<T> {
    // Last to first: a vector has room to give back only at its end.
    backwards: Vec<T>,
}

impl<T> Model for ItemsLeft<T> {
    ghost use Rattle.std.specs.Prelude.{List, reverse};

    ghost Value = { List T };

    ghost view = { λ left. reverse left.backwards.items };
}

/// The items of a vector in order. The vector shrinks as they are taken.
pub fn drain<T>(items: Vec<T>) -> ItemsLeft<T>
    ensures { result ≡ items.items }
{
    let mut backwards = items;
    backwards.reverse();
    ItemsLeft { backwards }
}

impl<T> ItemsLeft<T> {
    /// The vector that they were in, of which none is left. It keeps its room.
    pub fn into_room(self) -> Vec<T>
        requires { self ≡ [] }
        ensures { result.items ≡ [] }
    {
        self.backwards
    }
}

impl<T: Drop> Iterator for ItemsLeft<T> {
    type Item = T;

    ghost next_gives = { YieldsFirst (λ rest. rest) };

    ghost remaining = { item_count (λ rest. rest) };

    fn next(&mut self) -> Option<T> {
        if self.backwards.capacity() - self.backwards.len() >= GIVEN_BACK {
            self.backwards.shrink_to_fit();
        }
        self.backwards.pop()
    }
}
