//! Pools: messages wait in a lent row of places, oldest first. One text serves every kind of message.
#![tactic(auto)]

ghost use Rattle.std.specs.Prelude.{◌≡◌, ◌+◌, ◌≤◌, Bool, false, [], ◌∷◌, ◌++◌, length, None};
ghost use Rattle.pools.specs.Laws.{PoolLaws};
ghost use Rattle.pools.specs.Places.{Found, Vacant, Free};
ghost use Rattle.pools.specs.Pools.{held, has_room, put_answer, put_last, fitting, nth_fitting, without_nth};

use std::error::Error;
use std::fmt;

/// All that a pool asks of a message: whom it fits.
pub trait Message: Copy {
    type Party;

    ghost meets: { Self → Self.Party → Bool };

    fn fits(&self, party: &Self::Party) -> bool
        ensures { result ≡ meets self.now party.now };
}

#[derive(Clone, Copy, PartialEq, Eq, Debug)]
pub enum Refusal {
    NoPlace,
}

impl fmt::Display for Refusal {
    fn fmt<W: fmt::Write>(&self, f: &mut fmt::Formatter<W>) -> fmt::Result {
        f.write_str(match self {
            Refusal::NoPlace => "no place is free",
        })
    }
}

impl Error for Refusal {}

// The row is lent by its owner, who keeps it as a field among others: so a pool is functions over a slice.

/// Lets a message wait behind all others.
pub fn put<M: Message>(places: &mut [Option<M>], message: M) -> Result<(), Refusal>
    ensures answer { result ≡ put_answer (has_room (length places.old) (held places.old)) }
    ensures next { held places.new ≡ put_last (length places.old) message (held places.old) }
    ensures unchanged { has_room (length places.old) (held places.old) ≡ false → places.new ≡ places.old }
{
    let i = free_place(places).ok_or(Refusal::NoPlace)?;
    write_last(places, i, message);
    Ok(())
}

/// Takes out the n-th oldest message, from 0, that fits a party. Its place is left as a gap, which a later `put` closes.
pub fn take<M: Message>(places: &mut [Option<M>], party: &M::Party, n: usize) -> Option<M>
    ensures answer { result ≡ nth_fitting M.meets party.now n (held places.old) }
    ensures next { held places.new ≡ without_nth M.meets party.now n (held places.old) }
    ensures unchanged { result ≡ None → places.new ≡ places.old }
{
    let i = place_of(places, party, n)?;
    // By hand: `Option::take` copies the message twice more.
    let taken = places[i];
    places[i] = None;
    taken
}

/// Shows the message that `take` would take out.
pub fn nth<M: Message>(places: &[Option<M>], party: &M::Party, n: usize) -> Option<M>
    ensures answer { result ≡ nth_fitting M.meets party.now n (held places.now) }
{
    places[place_of(places, party, n)?]
}

/// How many messages wait.
pub fn count<M: Message>(places: &[Option<M>]) -> usize
    ensures answer { result ≡ length (held places.now) }
    ensures within { result ≤ length places.now }
{
    // A sum: the `count` of a chain took some three times as long.
    places.iter().map(|place| place.is_some() as usize).sum()
}

/// How many of them fit a party.
pub fn count_for<M: Message>(places: &[Option<M>], party: &M::Party) -> usize
    ensures answer { result ≡ length (fitting M.meets party.now (held places.now)) }
    ensures within { result ≤ length (held places.now) }
{
    places
        .iter()
        .map(|place| place.as_ref().is_some_and(|message| message.fits(party)) as usize)
        .sum()
}

/// How many more could wait.
pub fn free<M: Message>(places: &[Option<M>]) -> usize
    ensures answer { result + length (held places.now) ≡ length places.now }
{
    places.len() - count(places)
}

/// Promises the laws of putting and taking; there is nothing to run.
pub fn pool_laws_hold<M: Message>()
    ensures { PoolLaws M.meets }
{}

fn free_place<M: Message>(places: &[Option<M>]) -> Option<usize>
    ensures { Free places.now result }
{
    places.iter().position(Option::is_none)
}

// Writes a message into a free place and moves it to the end of the row; what stood behind it moves up by one.
fn write_last<M: Message>(places: &mut [Option<M>], i: usize, message: M)
    requires { Vacant places.old i }
    ensures { held places.new ≡ held places.old ++ (message ∷ []) }
{
    places[i] = Some(message);
    places[i..].rotate_left(1);
}

// Where the n-th oldest message stands that fits a party.
fn place_of<M: Message>(places: &[Option<M>], party: &M::Party, n: usize) -> Option<usize>
    ensures { Found M.meets party.now n places.now result }
{
    // A loop: by `filter` and `nth` it took half as long again, or more.
    let mut older = n;
    for (i, place) in places.iter().enumerate() {
        if place.as_ref().is_some_and(|message| message.fits(party)) {
            if older == 0 {
                return Some(i);
            }
            older -= 1;
        }
    }
    None
}
