// The undo store: a trial changes the pairs in place and notes what it alters.
ghost use Rattle.std.specs.Prelude.{◌≡◌, true};
ghost use Rattle.stores.specs.Notes.{notes_of, rewound};
ghost use Rattle.stores.specs.Places.{distinct};

use crate::interface::Store;
use crate::notes::{Note, rewind};
use crate::rows::Row;
use crate::types::{CHANGE_LIMIT, Pair, StoreRefusal};
use short_lists::ShortList;

const CAPACITY: usize = 32;

// One note for each change.
const NOTE_LIMIT: usize = CHANGE_LIMIT as usize;

/// A store of 32 pairs.
#[derive(Clone, Copy)]
pub struct UndoStore {
    // The committed pairs, or while a trial is open the working ones.
    pairs: Row<CAPACITY>,
    // What the open trial altered, the oldest note first.
    trial: Option<ShortList<Note, NOTE_LIMIT>>,
    ghost rewound_distinct: { distinct (rewound (notes_of trial) pairs.places) ≡ true },
}

impl UndoStore {
    ghost use Rattle.stores.specs.Store.{empty_store};
    ghost use Rattle.stores.specs.Undo.{undo_model};

    pub fn new() -> Self
        ensures { undo_model result ≡ empty_store 32 }
    {
        UndoStore {
            pairs: Row::new(),
            trial: None,
        }
    }
}

impl Default for UndoStore {
    ghost use Rattle.stores.specs.Store.{empty_store};
    ghost use Rattle.stores.specs.Undo.{undo_model};

    ghost is_default = { λ s. undo_model s ≡ empty_store 32 };

    fn default() -> Self {
        UndoStore::new()
    }
}

impl Store for UndoStore {
    ghost use Rattle.stores.specs.Rows.{undo_sound};
    ghost use Rattle.stores.specs.Undo.{undo_model};

    ghost model = { undo_model };

    ghost sound = { undo_sound };

    fn begin(&mut self) -> Result<(), StoreRefusal> {
        // Nothing of the open trial is wanted, so it is only asked for.
        if self.trial.is_some() {
            return Err(StoreRefusal::TrialOpen);
        }
        self.trial = Some(ShortList::new(Note::default()));
        Ok(())
    }

    fn look(&self, key: u64) -> Option<u32> {
        self.pairs.find(key)
    }

    // `put` and `drop` differ in the write and its refusal; a closure for both would have to promise that
    // its note undoes it, which is longer than what stands here twice.
    fn put(&mut self, key: u64, value: u32) -> Result<(), StoreRefusal> {
        let notes = self.trial.as_mut().ok_or(StoreRefusal::TrialClosed)?;
        if notes.len() >= NOTE_LIMIT {
            return Err(StoreRefusal::TooManyChanges);
        }
        let pair = Pair { key, value };
        let note = self.pairs.insert(pair).ok_or(StoreRefusal::Full)?;
        notes.push(note).unwrap();
        Ok(())
    }

    fn drop(&mut self, key: u64) -> Result<(), StoreRefusal> {
        let notes = self.trial.as_mut().ok_or(StoreRefusal::TrialClosed)?;
        if notes.len() >= NOTE_LIMIT {
            return Err(StoreRefusal::TooManyChanges);
        }
        let note = self.pairs.remove(key).ok_or(StoreRefusal::KeyAbsent)?;
        notes.push(note).unwrap();
        Ok(())
    }

    fn commit(&mut self) -> Result<(), StoreRefusal> {
        self.trial.take().ok_or(StoreRefusal::TrialClosed)?;
        Ok(())
    }

    fn roll_back(&mut self) -> Result<(), StoreRefusal> {
        // Read where they stand: taken out, they are copied first.
        let notes = self.trial.as_ref().ok_or(StoreRefusal::TrialClosed)?;
        // That the keys are distinct afterwards is a fact of this store, so the places are handed out.
        rewind(&mut self.pairs.places, notes.as_slice());
        self.trial = None;
        Ok(())
    }
}
