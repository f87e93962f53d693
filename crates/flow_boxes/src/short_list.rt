ghost use Rattle.std.specs.Prelude.{◌≡◌, ◌↔◌, ◌<◌, [], ◌∷◌, ◌++◌, length, IsTrue};

use std::marker::Model;

/// How long a list is at most.
pub const MOST: usize = 64;

/// At most 64 values, in the order in which they were given. They take no memory beside the list itself. Contracts see
/// the list of them.
#[derive(Debug, Drop)]
pub struct ShortList<T> {
    members: [T; MOST],
    count: usize,
}

impl<T> Model for ShortList<T> {
    ghost use Rattle.std.specs.Prelude.{List, take, ◌≤◌};

    ghost Value = { List T };

    ghost view = { λ l. take l.count l.members };

    ghost invariant = { λ l. l.count ≤ 64 };
}

impl<T: Copy> ShortList<T> {
    /// The list of no value. `unused` stands in its room, where nobody sees it.
    pub fn new(unused: T) -> Self
        ensures { result ≡ [] }
    {
        ShortList {
            members: [unused; MOST],
            count: 0,
        }
    }

    /// One more value, which goes last.
    pub fn push(&mut self, value: T)
        requires { length self.old < 64 }
        ensures { self.new ≡ self.old ++ value ∷ [] }
    {
        self.members[self.count] = value;
        self.count += 1;
    }

    /// The values in their order.
    pub fn as_slice(&self) -> &[T]
        ensures { result.now ≡ self.now }
    {
        &self.members[..self.count]
    }

    /// How many values there are, at most 64.
    pub fn len(&self) -> usize
        ensures { result ≡ length self.now }
    {
        self.as_slice().len()
    }

    /// Whether there is none.
    pub fn is_empty(&self) -> bool
        ensures { IsTrue result ↔ (self.now ≡ []) }
    {
        self.as_slice().is_empty()
    }
}
