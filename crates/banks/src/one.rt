// One store is a bank.
ghost use Rattle.std.specs.Prelude.{◌≡◌, ◌<◌, [], ◌∷◌};
ghost use Rattle.std.specs.Fn.{FnOnceReturnsAtMut};
ghost use Rattle.banks.specs.Bank.{from_store};
ghost use Rattle.banks.specs.declared.types.BankRefusal.TheVariants.{NoSuchStore};
ghost use Rattle.banks.specs.Single.{single_sound};

use crate::interface::Bank;
use crate::types::BankRefusal;
use stores::{Store, StoreRefusal};

/// A bank of one store.
#[derive(Default, Drop)]
pub struct One<S> {
    pub store: S,
}

impl<S: Store> One<S> {
    // What an act on the store of this number comes to. `look` only reads, so it tests the number itself.
    fn at<F: FnOnce(&mut S) -> Result<(), StoreRefusal>>(
        &mut self,
        service: u8,
        act: F,
    ) -> Result<(), BankRefusal>
        requires { F.IsAlwaysCallable act }
        ensures there { service ≡ 0 → (r : _) × FnOnceReturnsAtMut F.FnOnce act self.old.store r self.new.store × (result ≡ from_store r) }
        ensures elsewhere { 0 < service → (result ≡ Err NoSuchStore) × (self.new ≡ self.old) }
    {
        if service > 0 {
            return Err(BankRefusal::NoSuchStore);
        }
        Ok(act(&mut self.store)?)
    }
}

impl<S: Store> Bank for One<S> {
    ghost stores = { λ b. S.Store.model b.store ∷ [] };

    ghost sound = { λ b. single_sound (S.Store.model b.store) (S.Store.sound b.store) };

    fn count(&self) -> u8 {
        1
    }

    fn begin(&mut self, service: u8) -> Result<(), BankRefusal> {
        self.at(service, |store| store.begin())
    }

    fn look(&self, service: u8, key: u64) -> Result<Option<u32>, BankRefusal> {
        if service > 0 {
            return Err(BankRefusal::NoSuchStore);
        }
        Ok(self.store.look(key))
    }

    fn put(&mut self, service: u8, key: u64, value: u32) -> Result<(), BankRefusal> {
        self.at(service, |store| store.put(key, value))
    }

    fn drop(&mut self, service: u8, key: u64) -> Result<(), BankRefusal> {
        self.at(service, |store| store.drop(key))
    }

    fn commit(&mut self, service: u8) -> Result<(), BankRefusal> {
        self.at(service, |store| store.commit())
    }

    fn roll_back(&mut self, service: u8) -> Result<(), BankRefusal> {
        self.at(service, |store| store.roll_back())
    }
}
