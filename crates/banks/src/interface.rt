// The interface of a bank.
ghost use Rattle.std.specs.Prelude.{◌≡◌, length};
ghost use Rattle.stores.specs.Store.{look_step, begin_step, put_step, drop_step, commit_step, roll_back_step};
ghost use Rattle.banks.specs.Bank.{BankModel, SoundBank, at_store};

use crate::types::BankRefusal;

/// A bank of 1 to 8 stores, numbered from 0. Each function is the store's, done to the store of the
/// service number; the other stores stay as they were. The clauses are written out, so that a function's
/// contract stands at its name.
pub trait Bank {
    // What the bank means: its stores in order.
    ghost stores: { Self → BankModel };

    /// How many stores there are; no function alters it.
    fn count(&self) -> u8
        ensures { result ≡ length (stores self.now) };

    fn begin(&mut self, service: u8) -> Result<(), BankRefusal>
        ensures answer { result ≡ (at_store service begin_step (stores self.old)).answer }
        ensures next { stores self.new ≡ (at_store service begin_step (stores self.old)).next };

    fn look(&self, service: u8, key: u64) -> Result<Option<u32>, BankRefusal>
        ensures { result ≡ (at_store service (look_step key) (stores self.now)).answer };

    fn put(&mut self, service: u8, key: u64, value: u32) -> Result<(), BankRefusal>
        ensures answer { result ≡ (at_store service (put_step key value) (stores self.old)).answer }
        ensures next { stores self.new ≡ (at_store service (put_step key value) (stores self.old)).next };

    fn drop(&mut self, service: u8, key: u64) -> Result<(), BankRefusal>
        ensures answer { result ≡ (at_store service (drop_step key) (stores self.old)).answer }
        ensures next { stores self.new ≡ (at_store service (drop_step key) (stores self.old)).next };

    fn commit(&mut self, service: u8) -> Result<(), BankRefusal>
        ensures answer { result ≡ (at_store service commit_step (stores self.old)).answer }
        ensures next { stores self.new ≡ (at_store service commit_step (stores self.old)).next };

    fn roll_back(&mut self, service: u8) -> Result<(), BankRefusal>
        ensures answer { result ≡ (at_store service roll_back_step (stores self.old)).answer }
        ensures next { stores self.new ≡ (at_store service roll_back_step (stores self.old)).next };

    ghost sound: { (b : Self) → SoundBank (stores b) };
}
