//! Two kinds of message, at 8 and at 64 places, in pools of one text.
#![tactic(auto)]

ghost use Rattle.std.specs.Prelude.{◌≡◌, ◌+◌, length};
ghost use Rattle.pools.specs.Pools.{held, has_room, put_answer, put_last, fitting, nth_fitting, without_nth};
ghost use Rattle.pool_tests.specs.Kinds.{for_reader, for_desk};

use pools::{Message, Refusal};

#[cfg(test)]
mod tests;

/// A note is for one reader.
#[derive(Clone, Copy, PartialEq, Eq, Debug)]
pub struct Note {
    pub reader: u8,
    pub text: u16,
}

impl Message for Note {
    type Party = u8;

    ghost meets = { for_reader };

    fn fits(&self, party: &u8) -> bool {
        self.reader == *party
    }
}

#[derive(Clone, Copy, PartialEq, Eq, Debug)]
pub struct Desk {
    pub floor: u8,
    pub room: u8,
}

/// A letter is for a desk: a party of two numbers.
#[derive(Clone, Copy, PartialEq, Eq, Debug)]
pub struct Letter {
    pub number: u32,
    pub desk: Desk,
    pub weight: u16,
}

impl Message for Letter {
    type Party = Desk;

    ghost meets = { for_desk };

    fn fits(&self, party: &Desk) -> bool {
        self.desk == *party
    }
}

/// A row has room for `N` messages. Its clauses speak of its places, as those of the pools do.
#[derive(Drop)]
pub struct Row<M: Message, const N: usize> {
    pub places: [Option<M>; N],
}

impl<M: Message, const N: usize> Row<M, N> {
    pub fn put(&mut self, message: M) -> Result<(), Refusal>
        ensures answer { result ≡ put_answer (has_room N (held self.old.places)) }
        ensures next { held self.new.places ≡ put_last N message (held self.old.places) }
    {
        pools::put(&mut self.places, message)
    }

    pub fn take(&mut self, party: &M::Party, n: usize) -> Option<M>
        ensures answer { result ≡ nth_fitting M.meets party.now n (held self.old.places) }
        ensures next { held self.new.places ≡ without_nth M.meets party.now n (held self.old.places) }
    {
        pools::take(&mut self.places, party, n)
    }

    pub fn free(&self) -> usize
        ensures answer { result + length (held self.now.places) ≡ N }
    {
        pools::free(&self.places)
    }

    pub fn count_for(&self, party: &M::Party) -> usize
        ensures answer { result ≡ length (fitting M.meets party.now (held self.now.places)) }
    {
        pools::count_for(&self.places, party)
    }
}

/// A board has room for 8 notes.
pub type Board = Row<Note, 8>;

/// An office has room for 64 letters.
#[derive(Drop)]
pub struct Office {
    pub letters: Row<Letter, 64>,
    pub street: u16,
}

impl Office {
    pub fn post(&mut self, letter: Letter) -> Result<(), Refusal>
        ensures answer { result ≡ put_answer (has_room 64 (held self.old.letters.places)) }
        ensures next { held self.new.letters.places ≡ put_last 64 letter (held self.old.letters.places) }
        ensures others { self.new.street ≡ self.old.street }
    {
        self.letters.put(letter)
    }

    pub fn deliver(&mut self, desk: Desk, n: usize) -> Option<Letter>
        ensures answer { result ≡ nth_fitting for_desk desk n (held self.old.letters.places) }
        ensures next { held self.new.letters.places ≡ without_nth for_desk desk n (held self.old.letters.places) }
        ensures others { self.new.street ≡ self.old.street }
    {
        self.letters.take(&desk, n)
    }

    pub fn waiting_for(&self, desk: Desk) -> usize
        ensures answer { result ≡ length (fitting for_desk desk (held self.now.letters.places)) }
    {
        self.letters.count_for(&desk)
    }
}
