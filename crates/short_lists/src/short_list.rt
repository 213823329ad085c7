// A list of at most `N` items.
ghost use Rattle.std.specs.Prelude.{◌≡◌, ◌≤◌, ◌<◌, ◌↔◌, [], ◌∷◌, ◌++◌, length, take, IsOk, IsTrue, slice_set, ⊤};
ghost use Rattle.std.specs.List.{slice_get};

use std::alloc::AllocError;
use std::error::Error;
use std::fmt;

/// At most `N` items in their order. What lies behind them is of no meaning, so that no equality is
/// derived: compare the slices. The library's `ArrayVec` is not `Copy`, and this list is.
pub struct ShortList<T: Copy, const N: usize> {
    items: [T; N],
    used: usize,
    ghost sized: { length items ≡ N },
    ghost within: { used ≤ N },
}

// By hand: the check derives no `Clone` over a ghost field where there is a type parameter.
impl<T: Copy, const N: usize> Clone for ShortList<T, N> {
    ghost is_clone = { λ x y. y ≡ x };

    ghost is_infallible = { λ _. ⊤ };

    fn clone(&self) -> Result<Self, AllocError> {
        Ok(*self)
    }
}

impl<T: Copy, const N: usize> Copy for ShortList<T, N> {}

/// The list had no room for another item.
#[derive(Clone, Copy, PartialEq, Eq, Debug)]
pub struct Full;

impl fmt::Display for Full {
    fn fmt<W: fmt::Write>(&self, f: &mut fmt::Formatter<W>) -> fmt::Result {
        f.write_str("the list is full")
    }
}

impl Error for Full {}

impl<T: Copy, const N: usize> ShortList<T, N> {
    ghost use Rattle.short_lists.specs.ShortList.{listed};

    /// A list without items; the filler stands where none is.
    pub fn new(filler: T) -> Self
        ensures { listed result ≡ [] }
    {
        ShortList {
            items: [filler; N],
            used: 0,
        }
    }

    /// The items in their order.
    pub fn as_slice(&self) -> &[T]
        ensures items { result.now ≡ listed self.now }
        ensures few { length result.now ≤ N }
    {
        &self.items[..self.used]
    }

    pub fn len(&self) -> usize
        ensures items { result ≡ length (listed self.now) }
        ensures few { result ≤ N }
    {
        self.as_slice().len()
    }

    pub fn is_empty(&self) -> bool
        ensures { IsTrue result ↔ (listed self.now ≡ []) }
    {
        self.used == 0
    }

    /// The item with a number, from 0.
    pub fn get(&self, i: usize) -> Option<T>
        ensures { result ≡ slice_get (listed self.now) i }
    {
        self.as_slice().get(i).copied()
    }

    /// Adds an item at the end, if there is room.
    pub fn push(&mut self, item: T) -> Result<(), Full>
        ensures items { listed self.new ≡ take N (listed self.old ++ item ∷ []) }
        ensures room { IsOk result ↔ (length (listed self.old) < N) }
    {
        if self.used == N {
            return Err(Full);
        }
        self.items[self.used] = item;
        self.used += 1;
        Ok(())
    }

    /// Writes over the item with a number, if there is one.
    pub fn set(&mut self, i: usize, item: T)
        ensures { listed self.new ≡ slice_set (listed self.old) i item }
    {
        if i < self.used {
            self.items[i] = item;
        }
    }
}
