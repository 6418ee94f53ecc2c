// A table in fixed memory, since kernel and objects use no heap: at most N entries, numbered from 1 in the order in which
// they were added. A refused call leaves the table as it was.
ghost use Rattle.std.specs.Prelude.{◌≡◌, ◌≤◌, ◌↔◌, ⊤, [], length, IsTrue, Some};
ghost use Rattle.terms.specs.Calls.{Follows};
ghost use Rattle.terms.specs.Refusals.{table_refusal_of};

use crate::numbers::{replace_at, value_at};
use crate::refusal::Refusal;
use std::alloc::AllocError;

// No comparison is derived: it would look at the places that no entry has.
#[derive(Copy)]
pub struct Table<T, const N: usize> {
    places: [T; N],
    len: usize,
    ghost sized: { length places ≡ N },
    ghost fits: { len ≤ N },
}

// By hand: none is derived for a generic struct with ghost fields.
impl<T: Copy, const N: usize> Clone for Table<T, N> {
    ghost is_clone = { λ table copy. copy ≡ table };

    ghost is_infallible = { λ _. ⊤ };

    fn clone(&self) -> Result<Table<T, N>, AllocError> {
        Ok(*self)
    }
}

impl<T: Copy, const N: usize> Table<T, N> {
    ghost use Rattle.terms.specs.Entries.{entries, numbered, replaced, among, added};

    // An empty table; the filler stands in the places that no entry has yet.
    pub fn new(filler: T) -> Table<T, N>
        ensures { entries result ≡ [] }
    {
        Table {
            places: [filler; N],
            len: 0,
        }
    }

    pub fn len(&self) -> usize
        ensures count { result ≡ length (entries self.now) }
        ensures most { result ≤ N }
    {
        self.as_slice().len()
    }

    pub fn is_empty(&self) -> bool
        ensures { IsTrue result ↔ (entries self.now ≡ []) }
    {
        self.as_slice().is_empty()
    }

    pub fn get(&self, number: usize) -> Option<T>
        ensures { result ≡ numbered (entries self.now) number }
    {
        value_at(self.as_slice(), number)
    }

    pub fn as_slice(&self) -> &[T]
        ensures { result.now ≡ entries self.now }
    {
        let all = &self.places[..];
        &all[0..self.len]
    }

    // One entry more, behind the others.
    pub fn push(&mut self, entry: T) -> Result<(), TableFault>
        ensures { Follows (added N (entries self.old) (Some entry)) result (entries self.old) (entries self.new) }
    {
        if self.len == N {
            return Err(TableFault::Full);
        }
        self.places[self.len] = entry;
        self.len += 1;
        Ok(())
    }

    // One entry more, where `None` stands for a faulty one: a full table is refused before it.
    pub fn add(&mut self, entry: Option<T>) -> Result<(), TableFault>
        ensures { Follows (added N (entries self.old) entry) result (entries self.old) (entries self.new) }
    {
        match entry {
            Some(entry) => self.push(entry),
            None if self.len == N => Err(TableFault::Full),
            None => Err(TableFault::Value),
        }
    }

    // Puts an entry in the place of the one with that number; false where there is none.
    pub fn replace(&mut self, number: usize, entry: T) -> bool
        ensures accepted { result ≡ among (entries self.old) number }
        ensures after { entries self.new ≡ replaced (entries self.old) number entry }
    {
        let all = &mut self.places[..];
        replace_at(&mut all[0..self.len], number, entry)
    }
}

// Why a table takes no further entry, or not this one.
#[derive(Clone, Copy, Debug, PartialEq, Eq)]
pub enum TableFault {
    Full,
    Value,
}

impl From<TableFault> for Refusal {
    ghost from_gives = { λ fault refusal. refusal ≡ table_refusal_of fault };

    fn from(fault: TableFault) -> Refusal {
        match fault {
            TableFault::Full => Refusal::Full,
            TableFault::Value => Refusal::Value,
        }
    }
}
