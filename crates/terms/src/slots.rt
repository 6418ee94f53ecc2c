// N values in fixed memory, since kernel and objects use no heap, numbered from 1.
ghost use Rattle.std.specs.Prelude.{◌≡◌, ⊤, length, replicate};

use crate::numbers::{replace_at, value_at};
use std::alloc::AllocError;

#[derive(Copy, Debug, PartialEq, Eq)]
pub struct Slots<T, const N: usize> {
    values: [T; N],
    ghost sized: { length values ≡ N },
}

// By hand: none is derived for a generic struct with ghost fields.
impl<T: Copy, const N: usize> Clone for Slots<T, N> {
    ghost is_clone = { λ slots copy. copy ≡ slots };

    ghost is_infallible = { λ _. ⊤ };

    fn clone(&self) -> Result<Slots<T, N>, AllocError> {
        Ok(*self)
    }
}

impl<T: Copy, const N: usize> Slots<T, N> {
    ghost use Rattle.terms.specs.Entries.{values, numbered, replaced, among};

    // N times the same value.
    pub fn new(filler: T) -> Slots<T, N>
        ensures { values result ≡ replicate N filler }
    {
        let values = [filler; N];
        Slots { values }
    }

    pub fn get(&self, number: usize) -> Option<T>
        ensures value { result ≡ numbered (values self.now) number }
        ensures count { length (values self.now) ≡ N }
    {
        value_at(&self.values, number)
    }

    pub fn as_slice(&self) -> &[T]
        ensures values { result.now ≡ values self.now }
        ensures count { length (values self.now) ≡ N }
    {
        &self.values
    }

    // Puts a value in the place of the one with that number; false where there is none.
    pub fn set(&mut self, number: usize, value: T) -> bool
        ensures accepted { result ≡ among (values self.old) number }
        ensures after { values self.new ≡ replaced (values self.old) number value }
        ensures count { length (values self.new) ≡ N }
    {
        replace_at(&mut self.values, number, value)
    }
}
