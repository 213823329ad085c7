// The shadow store: a trial works on a copy of the pairs.
ghost use Rattle.std.specs.Prelude.{◌≡◌, ◌≤◌};

use crate::interface::Store;
use crate::rows::Row;
use crate::types::{CHANGE_LIMIT, Pair, StoreRefusal};

const CAPACITY: usize = 16;

// An open trial: the pairs that it works on, and how many changes led to them.
#[derive(Clone, Copy)]
pub(crate) struct Draft {
    pairs: Row<CAPACITY>,
    changes: u8,
    ghost limited: { changes ≤ 8 },
}

impl Draft {
    ghost use Rattle.stores.specs.Shadow.{draft_trial, Changes};
    ghost use Rattle.stores.specs.Store.{put_in, drop_in};

    // `put` and `drop` differ in the write and its refusal; handing both over as a closure takes a
    // contract longer than the lines that it saves.
    fn put(&mut self, pair: Pair) -> Result<(), StoreRefusal>
        ensures { Changes result self.old self.new (put_in 16 pair.key pair.value (draft_trial self.old)) }
    {
        if self.changes >= CHANGE_LIMIT {
            return Err(StoreRefusal::TooManyChanges);
        }
        self.pairs.insert(pair).ok_or(StoreRefusal::Full)?;
        self.changes += 1;
        Ok(())
    }

    fn drop(&mut self, key: u64) -> Result<(), StoreRefusal>
        ensures { Changes result self.old self.new (drop_in key (draft_trial self.old)) }
    {
        if self.changes >= CHANGE_LIMIT {
            return Err(StoreRefusal::TooManyChanges);
        }
        self.pairs.remove(key).ok_or(StoreRefusal::KeyAbsent)?;
        self.changes += 1;
        Ok(())
    }
}

/// A store of 16 pairs.
#[derive(Clone, Copy)]
pub struct ShadowStore {
    committed: Row<CAPACITY>,
    trial: Option<Draft>,
}

impl ShadowStore {
    ghost use Rattle.stores.specs.Shadow.{shadow_model};
    ghost use Rattle.stores.specs.Store.{empty_store};

    pub fn new() -> Self
        ensures { shadow_model result ≡ empty_store 16 }
    {
        ShadowStore {
            committed: Row::new(),
            trial: None,
        }
    }
}

impl Default for ShadowStore {
    ghost use Rattle.stores.specs.Shadow.{shadow_model};
    ghost use Rattle.stores.specs.Store.{empty_store};

    ghost is_default = { λ s. shadow_model s ≡ empty_store 16 };

    fn default() -> Self {
        ShadowStore::new()
    }
}

impl Store for ShadowStore {
    ghost use Rattle.stores.specs.Rows.{shadow_sound};
    ghost use Rattle.stores.specs.Shadow.{shadow_model};

    ghost model = { shadow_model };

    ghost sound = { shadow_sound };

    fn begin(&mut self) -> Result<(), StoreRefusal> {
        // Nothing of the open trial is wanted, so it is only asked for.
        if self.trial.is_some() {
            return Err(StoreRefusal::TrialOpen);
        }
        self.trial = Some(Draft {
            pairs: self.committed,
            changes: 0,
        });
        Ok(())
    }

    fn look(&self, key: u64) -> Option<u32> {
        match &self.trial {
            Some(draft) => draft.pairs.find(key),
            None => self.committed.find(key),
        }
    }

    fn put(&mut self, key: u64, value: u32) -> Result<(), StoreRefusal> {
        let draft = self.trial.as_mut().ok_or(StoreRefusal::TrialClosed)?;
        draft.put(Pair { key, value })
    }

    fn drop(&mut self, key: u64) -> Result<(), StoreRefusal> {
        let draft = self.trial.as_mut().ok_or(StoreRefusal::TrialClosed)?;
        draft.drop(key)
    }

    fn commit(&mut self) -> Result<(), StoreRefusal> {
        // Read where it stands: one that is taken out is copied twice.
        let draft = self.trial.as_ref().ok_or(StoreRefusal::TrialClosed)?;
        self.committed = draft.pairs;
        self.trial = None;
        Ok(())
    }

    fn roll_back(&mut self) -> Result<(), StoreRefusal> {
        self.trial.take().ok_or(StoreRefusal::TrialClosed)?;
        Ok(())
    }
}
