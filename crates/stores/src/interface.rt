// The interface of a store.
ghost use Rattle.std.specs.Prelude.{◌≡◌};
ghost use Rattle.stores.specs.Store.{StoreModel, Sound, look, begin_step, put_step, drop_step, commit_step, roll_back_step};

use crate::types::StoreRefusal;

/// A store of pairs that are changed in trials. Each operation answers and leaves what its
/// definition on the store's meaning says, in a clause each, since a clause is one fact; a refused one leaves the meaning as it was.
pub trait Store {
    // What the store means.
    ghost model: { Self → StoreModel };

    /// Opens a trial on the committed pairs.
    fn begin(&mut self) -> Result<(), StoreRefusal>
        ensures answer { result ≡ (begin_step (model self.old)).answer }
        ensures next { model self.new ≡ (begin_step (model self.old)).next };

    /// The value under a key: of the working pairs if a trial is open, else of the committed ones.
    fn look(&self, key: u64) -> Option<u32>
        ensures answer { result ≡ look key (model self.now) };

    /// Sets the value under a key. Key and value come apart, as in a map's `insert`.
    fn put(&mut self, key: u64, value: u32) -> Result<(), StoreRefusal>
        ensures answer { result ≡ (put_step key value (model self.old)).answer }
        ensures next { model self.new ≡ (put_step key value (model self.old)).next };

    /// Removes a key.
    fn drop(&mut self, key: u64) -> Result<(), StoreRefusal>
        ensures answer { result ≡ (drop_step key (model self.old)).answer }
        ensures next { model self.new ≡ (drop_step key (model self.old)).next };

    /// Makes the working pairs the committed ones and closes the trial.
    fn commit(&mut self) -> Result<(), StoreRefusal>
        ensures answer { result ≡ (commit_step (model self.old)).answer }
        ensures next { model self.new ≡ (commit_step (model self.old)).next };

    /// Leaves the committed pairs as they were and closes the trial.
    fn roll_back(&mut self) -> Result<(), StoreRefusal>
        ensures answer { result ≡ (roll_back_step (model self.old)).answer }
        ensures next { model self.new ≡ (roll_back_step (model self.old)).next };

    // A capacity from 8 to 64, one value for a key, never more pairs than the capacity, at most 8 changes.
    ghost sound: { (s : Self) → Sound (model s) };
}
