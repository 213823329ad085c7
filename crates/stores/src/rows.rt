// Pairs kept in a row of places, in any order, no key twice. The memory is fixed; a map of the library
// would ask for more.
ghost use Rattle.std.specs.Prelude.{◌≡◌, ◌<◌, true, not, [], length, is_some, IfSome, IfNone, slice_set};
ghost use Rattle.std.specs.List.{position};
ghost use Rattle.stores.specs.Pairs.{find, insert, erase};
ghost use Rattle.stores.specs.Places.{holds, is_free, place_for, contents, distinct, no_room};

use crate::notes::Note;
use crate::types::Pair;

#[derive(Clone, Copy)]
pub(crate) struct Row<const N: usize> {
    pub(crate) places: [Option<Pair>; N],
    ghost sized: { length places ≡ N },
    ghost keys_distinct: { distinct places ≡ true },
}

impl<const N: usize> Row<N> {
    pub(crate) fn new() -> Self
        ensures { contents result.places ≡ [] }
    {
        Row { places: [None; N] }
    }

    // The value under a key.
    pub(crate) fn find(&self, key: u64) -> Option<u32>
        ensures { result ≡ find key (contents self.now.places) }
    {
        value_of(&self.places, key)
    }

    // Sets the value under the pair's key and notes what stood in its place; nothing, if the key is
    // new and no place is free.
    pub(crate) fn insert(&mut self, pair: Pair) -> Option<Note>
        ensures room { is_some result ≡ not (no_room pair.key N (contents self.old.places)) }
        ensures next { IfSome result (λ _. contents self.new.places ≡ insert pair.key pair.value (contents self.old.places)) }
        ensures undone { IfSome result (λ note. slice_set self.new.places note.place note.before ≡ self.old.places) }
        ensures unchanged { IfNone result (self.new ≡ self.old) }
    {
        let place = place_for(&self.places, pair.key)?;
        let before = self.places[place].replace(pair);
        Some(Note { place, before })
    }

    // Removes a key and notes what stood in its place; nothing, if no pair has the key.
    pub(crate) fn remove(&mut self, key: u64) -> Option<Note>
        ensures found { is_some result ≡ is_some (find key (contents self.old.places)) }
        ensures next { IfSome result (λ _. contents self.new.places ≡ erase key (contents self.old.places)) }
        ensures undone { IfSome result (λ note. slice_set self.new.places note.place note.before ≡ self.old.places) }
        ensures unchanged { IfNone result (self.new ≡ self.old) }
    {
        let place = place_of(&self.places, key)?;
        let before = self.places[place].take();
        Some(Note { place, before })
    }
}

// The value under a key, in any stretch of places.
pub(crate) fn value_of(places: &[Option<Pair>], key: u64) -> Option<u32>
    ensures { result ≡ find key (contents places.now) }
{
    places[place_of(places, key)?].map(|pair| pair.value)
}

// The place that holds a key. This search and the two below each say that the place is in the row:
// so an index of it needs no test, and a type for such an index would have to name the row.
fn place_of(places: &[Option<Pair>], key: u64) -> Option<usize>
    ensures answer { result ≡ position (holds key) places.now }
    ensures within { IfSome result (λ i. i < length places.now) }
{
    places
        .iter()
        .position(|place| place.is_some_and(|pair| pair.key == key))
}

// The first free place.
fn free_place(places: &[Option<Pair>]) -> Option<usize>
    ensures answer { result ≡ position is_free places.now }
    ensures within { IfSome result (λ i. i < length places.now) }
{
    places.iter().position(Option::is_none)
}

// Where a pair with the key is to be written: over the one that has the key, else in the first free
// place.
fn place_for(places: &[Option<Pair>], key: u64) -> Option<usize>
    ensures answer { result ≡ place_for key places.now }
    ensures within { IfSome result (λ i. i < length places.now) }
{
    place_of(places, key).or_else(|| free_place(places))
}
