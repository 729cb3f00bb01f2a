//! Lists of few items.
ghost use Rattle.std.specs.Prelude.{◌≡◌, ◌<◌, length};
ghost use Rattle.std.specs.List.{slice_index_or};

use std::marker::Model;

// One item in place, or any number of them.
#[derive(Drop)]
enum Kept<T> {
    One(T),
    Many(Vec<T>),
}

/// Some items, seen as a list. One alone takes no memory beside it.
#[derive(Drop)]
pub struct Few<T> {
    kept: Kept<T>,
}

impl<T> Model for Few<T> {
    ghost use Rattle.std.specs.Prelude.{List};
    ghost use Rattle.edr_station.specs.Few.{items_of};

    ghost Value = { List T };

    ghost view = { λ few. items_of few.kept };
}

impl<T> Few<T> {
    /// How many items there are.
    pub fn len(&self) -> usize
        ensures { result ≡ length self.now }
    {
        match &self.kept {
            Kept::One(_) => 1,
            Kept::Many(items) => items.len(),
        }
    }

    /// The item at a place, from 0.
    pub fn at(&self, place: usize) -> &T
        requires { place < length self.now }
        ensures { (d : T) → result.now ≡ slice_index_or self.now place d }
    {
        match &self.kept {
            Kept::One(item) => item,
            Kept::Many(items) => &items[place],
        }
    }
}

impl<T: Drop> Few<T> {
    /// The items of a vector. It takes no memory.
    pub fn of(mut items: Vec<T>) -> Few<T>
        ensures { result ≡ items.items }
    {
        if items.len() == 1
            && let Some(item) = items.pop()
        {
            return Few {
                kept: Kept::One(item),
            };
        }
        Few {
            kept: Kept::Many(items),
        }
    }
}
