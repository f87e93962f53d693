ghost use Rattle.std.specs.Prelude.{◌≡◌, ℕ, ◌+◌, ◌*◌, [], ◌∷◌, ◌++◌, Some, None, Option, List};
ghost use Rattle.std.specs.Prelude.{length, set, map};
ghost use Rattle.std.specs.Prelude.{◌^◌, ◌<◌, slice_get, MatchOption, IfOk, OnOk, OnErr};
ghost use Rattle.nat_tables.specs.Rows.{present, row_at, IsAbsent, StandsAt};

use indexmap::IndexMap;
use plain_text::NoMemory;
use std::alloc::Global;
use std::hash::Hash;
use std::marker::Model;

/// Entries in rows, in the order in which their keys were first seen. An entry that is removed leaves its row empty, so
/// that no other has to move. Contracts see the rows.
#[derive(Debug, Drop)]
pub(crate) struct FirstSeen<K: Copy + Eq + Hash, V: Copy> {
    rows: Vec<Option<(K, V)>>,
    /// The row of each key that has one. Where rows are not indexed, some keys may have none here.
    places: IndexMap<K, usize>,
    /// Whether a key is found by its place, or by looking at each row.
    indexed: bool,
    /// How many rows are not empty.
    count: usize,
}

impl<K: Copy + Eq + Hash, V: Copy> Model for FirstSeen<K, V> {
    ghost use Rattle.std.specs.Prelude.{List, Option};

    ghost Value = { List (Option (K × V)) };

    ghost use Rattle.nat_tables.specs.Rows.{AreFound};

    ghost view = { λ t. t.rows.items };

    ghost invariant = { λ t. AreFound K.eq t.indexed t.places.entries t.count t.rows.items };
}

impl<K: Copy + Eq + Hash, V: Copy> FirstSeen<K, V> {
    /// No rows. It takes no memory.
    pub(crate) fn new(alloc: Global) -> Self
        ensures { result ≡ [] }
    {
        FirstSeen {
            rows: Vec::new(alloc),
            places: IndexMap::new(alloc),
            indexed: true,
            count: 0,
        }
    }

    /// No rows, and room for so many.
    fn with_room(alloc: Global, count: usize) -> Result<Self, NoMemory>
        ensures { IfOk result (λ empty. empty ≡ []) }
    {
        Ok(FirstSeen {
            rows: Vec::with_capacity(alloc, count)?,
            places: IndexMap::with_capacity(alloc, count)?,
            indexed: true,
            count: 0,
        })
    }

    /// Whether a key is found in no time. Where it is not, each row is looked at.
    pub(crate) fn is_indexed(&self) -> bool {
        self.indexed
    }

    /// How many rows there are, empty ones included.
    pub(crate) fn rows(&self) -> usize
        ensures count { result ≡ length self.now }
        ensures fits { result < 2 ^ 63 }
    {
        self.rows.len()
    }

    /// How many entries there are.
    pub(crate) fn len(&self) -> usize
        ensures count { result ≡ length (present self.now) }
        ensures fits { result < 2 ^ 63 }
    {
        self.count
    }

    /// The entry of a row. None exactly where the row is empty, or past the last one.
    pub(crate) fn row(&self, at: usize) -> Option<(K, V)>
        ensures { result ≡ row_at self.now at }
    {
        match self.rows.get(at) {
            Some(row) => *row,
            None => None,
        }
    }

    /// As `find`, by looking at each row.
    fn scan(&self, key: &K) -> Option<(usize, V)>
        ensures { MatchOption result (IsAbsent K.eq key.now self.now)
            (λ found. StandsAt K.eq key.now self.now found.0 found.1) }
    {
        for at in 0..self.rows() {
            if let Some(entry) = self.row(at) {
                if *key == entry.0 {
                    return Some((at, entry.1));
                }
            }
        }
        None
    }

    /// The row of a key, and its value. None exactly where the key has no row.
    pub(crate) fn find(&self, key: &K) -> Option<(usize, V)>
        ensures { MatchOption result (IsAbsent K.eq key.now self.now)
            (λ found. StandsAt K.eq key.now self.now found.0 found.1) }
    {
        if !self.indexed {
            return self.scan(key);
        }
        let at = *self.places.get(key)?;
        let (own, value) = self.row(at)?;
        if *key == own { Some((at, value)) } else { None }
    }

    /// The entry at an index, in first-seen order. None exactly where the index is past the last one.
    pub(crate) fn entry(&self, index: usize) -> Option<(K, V)>
        ensures { result ≡ slice_get (present self.now) index }
    {
        let mut left = index;
        for row in self.rows.iter() {
            if let Some(entry) = row {
                if left == 0 {
                    return Some(*entry);
                }
                left -= 1;
            }
        }
        None
    }

    /// Puts a value into a row that is not empty, in the place of another.
    pub(crate) fn put(&mut self, at: usize, value: V)
        ensures { (entry : K × V) → row_at self.old at ≡ Some entry
            → self.new ≡ set self.old at (Some (entry.0, value)) }
    {
        if let Some(entry) = self.row(at) {
            self.rows[at] = Some((entry.0, value));
        }
    }

    /// Empties a row.
    pub(crate) fn clear(&mut self, at: usize)
        ensures { self.new ≡ set self.old at None }
    {
        if let Some(entry) = self.row(at) {
            self.places.swap_remove(&entry.0);
            self.rows[at] = None;
            self.count -= 1;
        }
    }

    /// Puts a key that has no row into a new one, the last.
    pub(crate) fn push(&mut self, key: K, value: V) -> Result<(), NoMemory>
        requires { IsAbsent K.eq key self.old }
        ensures ok { OnOk result (self.new ≡ self.old ++ Some (key, value) ∷ []) }
        ensures err { OnErr result (self.new ≡ self.old) }
    {
        self.rows.reserve(1)?;
        self.places.insert(key, self.rows.len())?;
        self.rows.push(Some((key, value)))?;
        self.count += 1;
        Ok(())
    }

    /// The same rows, not indexed: the copy is one of a block of memory, and takes no time for each key.
    pub(crate) fn copy(&self, alloc: Global) -> Result<Self, NoMemory>
        ensures { IfOk result (λ copy. copy ≡ self.now) }
    {
        Ok(FirstSeen {
            rows: Vec::from_slice(alloc, &self.rows)?,
            places: IndexMap::new(alloc),
            indexed: false,
            count: self.count,
        })
    }

    /// The same entries, indexed, with no empty row.
    pub(crate) fn swept(&self, alloc: Global) -> Result<Self, NoMemory>
        ensures { IfOk result (λ swept. swept ≡ map (λ entry. Some entry) (present self.now)) }
    {
        let mut swept = FirstSeen::with_room(alloc, self.len())?;
        for row in self.rows.iter() {
            if let Some(entry) = row {
                swept.push(entry.0, entry.1)?;
            }
        }
        Ok(swept)
    }

    /// The entries in their order.
    pub(crate) fn entries(&self, alloc: Global) -> Result<Vec<(K, V)>, NoMemory>
        ensures { IfOk result (λ entries. entries.items ≡ present self.now) }
    {
        let mut entries = Vec::new(alloc);
        for row in self.rows.iter() {
            if let Some(entry) = row {
                entries.push(*entry)?;
            }
        }
        Ok(entries)
    }
}
