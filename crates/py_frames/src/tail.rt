// The part of a list that is left.
ghost use Rattle.std.specs.Prelude.{◌≡◌, [], ◌∷◌, ◌≤◌, length, MatchOption};

use sqlite_items::Items;
use std::marker::Model;

/// The items of a list from a place on, which a contract sees as their list.
#[derive(Drop)]
pub struct Tail<'s, T> {
    items: &'s Items<T>,
    at: usize,
}

impl<'s, T> Model for Tail<'s, T> {
    ghost use Rattle.std.specs.Prelude.{◌≤◌, List, drop, length};
    ghost use Rattle.std.specs.Coded.{coded_list};

    ghost Value = { List T };

    ghost coded = { coded_list T.code };

    ghost view = { λ t. drop t.at t.items.now };

    ghost invariant = { λ t. t.at ≤ length t.items.now };
}

impl<'s, T> Tail<'s, T> {
    /// All items.
    pub fn all(items: &'s Items<T>) -> Tail<'s, T>
        ensures { result ≡ items.now }
    {
        Tail { items, at: 0 }
    }

    /// The first item, and what is left after it.
    pub fn first(self) -> Option<(&'s T, Tail<'s, T>)>
        ensures { MatchOption result (self.entry ≡ []) (λ next. self.entry ≡ next.0.now ∷ next.1) }
    {
        let Tail { items, at } = self;
        if at == items.len() {
            return None;
        }
        match items.get(at) {
            None => unreachable!(),
            Some(item) => Some((item, Tail { items, at: at + 1 })),
        }
    }

    /// How many items are left.
    pub fn len(&self) -> usize
        ensures { result ≡ length self.now }
    {
        self.items.len() - self.at
    }
}
