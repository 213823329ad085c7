// Two banks joined are a bank.
ghost use Rattle.std.specs.Prelude.{◌≡◌, length};
ghost use Rattle.banks.specs.Bank.{joined_stores};
ghost use Rattle.banks.specs.Joined.{side_of, joined_sound};

use crate::interface::Bank;
use crate::types::{BankRefusal, STORE_LIMIT};

/// The stores of the left bank, then those of the right one; any past the eighth are not in it.
#[derive(Default, Drop)]
pub struct Both<L, R> {
    pub left: L,
    pub right: R,
}

// The bank to which a number leads, and the number there; that bank knows whether it has such a store.
#[derive(Clone, Copy, PartialEq, Eq, Debug)]
enum Side {
    Left(u8),
    Right(u8),
}

impl<L: Bank, R: Bank> Both<L, R> {
    // Where a number leads. The banks differ in type, so each caller names both.
    fn side(&self, service: u8) -> Result<Side, BankRefusal>
        ensures { result ≡ side_of (length (L.Bank.stores self.now.left)) service }
    {
        let left = self.left.count();
        if service >= STORE_LIMIT {
            Err(BankRefusal::NoSuchStore)
        } else if service < left {
            Ok(Side::Left(service))
        } else {
            Ok(Side::Right(service - left))
        }
    }
}

#[tactic(auto, using(crate::proofs::Joined::joined))]
impl<L: Bank, R: Bank> Bank for Both<L, R> {
    ghost stores = { λ b. joined_stores (L.Bank.stores b.left) (R.Bank.stores b.right) };

    ghost sound = { λ b. joined_sound (L.Bank.stores b.left) (R.Bank.stores b.right) (L.Bank.sound b.left) (R.Bank.sound b.right) };

    fn count(&self) -> u8 {
        (self.left.count() + self.right.count()).min(STORE_LIMIT)
    }

    fn begin(&mut self, service: u8) -> Result<(), BankRefusal> {
        match self.side(service)? {
            Side::Left(n) => self.left.begin(n),
            Side::Right(n) => self.right.begin(n),
        }
    }

    fn look(&self, service: u8, key: u64) -> Result<Option<u32>, BankRefusal> {
        match self.side(service)? {
            Side::Left(n) => self.left.look(n, key),
            Side::Right(n) => self.right.look(n, key),
        }
    }

    fn put(&mut self, service: u8, key: u64, value: u32) -> Result<(), BankRefusal> {
        match self.side(service)? {
            Side::Left(n) => self.left.put(n, key, value),
            Side::Right(n) => self.right.put(n, key, value),
        }
    }

    fn drop(&mut self, service: u8, key: u64) -> Result<(), BankRefusal> {
        match self.side(service)? {
            Side::Left(n) => self.left.drop(n, key),
            Side::Right(n) => self.right.drop(n, key),
        }
    }

    fn commit(&mut self, service: u8) -> Result<(), BankRefusal> {
        match self.side(service)? {
            Side::Left(n) => self.left.commit(n),
            Side::Right(n) => self.right.commit(n),
        }
    }

    fn roll_back(&mut self, service: u8) -> Result<(), BankRefusal> {
        match self.side(service)? {
            Side::Left(n) => self.left.roll_back(n),
            Side::Right(n) => self.right.roll_back(n),
        }
    }
}
