// Worked examples of a store, each run on both makes.
use std::process::Abort;
use std::test::Fail;
use stores::{ShadowStore, Store, StoreRefusal, UndoStore};

// Puts keys from 100 on, each with its own number as value, eight to a trial, and commits.
fn fill<S: Store>(store: &mut S, batches: u32) -> Result<(), StoreRefusal> {
    for batch in 0..batches.min(8) {
        store.begin()?;
        for i in 8 * batch..8 * batch + 8 {
            store.put(100 + u64::from(i), i)?;
        }
        store.commit()?;
    }
    Ok(())
}

// A full store: a present key passes, a new one does not, and passes after a drop.
fn full<S: Store>(rt: &impl Abort, store: &mut S, batches: u32) -> Result<(), Fail> {
    fill(store, batches)?;
    store.begin()?;
    assert_eq!(rt; store.put(100, 77), Ok(()));
    assert_eq!(rt; store.put(5, 1), Err(StoreRefusal::Full));
    assert_eq!(rt; store.drop(101), Ok(()));
    assert_eq!(rt; store.put(5, 1), Ok(()));
    assert_eq!(rt; store.put(101, 1), Err(StoreRefusal::Full));
    store.commit()?;
    assert_eq!(rt; store.look(100), Some(77));
    assert_eq!(rt; store.look(101), None);
    assert_eq!(rt; store.look(5), Some(1));
    Ok(())
}

// A ninth change is refused for that, also where the store is full and where the key is absent.
fn ninth_change<S: Store>(rt: &impl Abort, store: &mut S, batches: u32) -> Result<(), Fail> {
    fill(store, batches)?;
    store.begin()?;
    for i in 0..8u32 {
        assert_eq!(rt; store.put(100, i), Ok(()));
    }
    assert_eq!(rt; store.put(5, 1), Err(StoreRefusal::TooManyChanges));
    assert_eq!(rt; store.put(100, 1), Err(StoreRefusal::TooManyChanges));
    assert_eq!(rt; store.drop(5), Err(StoreRefusal::TooManyChanges));
    assert_eq!(rt; store.look(100), Some(7));
    store.roll_back()?;
    assert_eq!(rt; store.look(100), Some(0));
    Ok(())
}

// Each operation's refusals, and that a refused one alters nothing.
fn refusals<S: Store>(rt: &impl Abort, store: &mut S) -> Result<(), Fail> {
    assert_eq!(rt; store.put(1, 1), Err(StoreRefusal::TrialClosed));
    assert_eq!(rt; store.drop(1), Err(StoreRefusal::TrialClosed));
    assert_eq!(rt; store.commit(), Err(StoreRefusal::TrialClosed));
    assert_eq!(rt; store.roll_back(), Err(StoreRefusal::TrialClosed));
    store.begin()?;
    assert_eq!(rt; store.begin(), Err(StoreRefusal::TrialOpen));
    assert_eq!(rt; store.drop(1), Err(StoreRefusal::KeyAbsent));
    store.put(1, 11)?;
    assert_eq!(rt; store.begin(), Err(StoreRefusal::TrialOpen));
    assert_eq!(rt; store.look(1), Some(11));
    store.commit()?;
    assert_eq!(rt; store.commit(), Err(StoreRefusal::TrialClosed));
    assert_eq!(rt; store.look(1), Some(11));
    Ok(())
}

// A roll-back after eight mixed changes on overlapping keys: only the newest-first way back is right.
fn mixed_roll_back<S: Store>(rt: &impl Abort, store: &mut S) -> Result<(), Fail> {
    store.begin()?;
    store.put(1, 10)?;
    store.put(2, 20)?;
    store.commit()?;
    store.begin()?;
    store.put(1, 11)?;
    store.put(1, 12)?;
    store.drop(1)?;
    store.put(3, 30)?;
    store.put(1, 13)?;
    store.drop(2)?;
    store.put(2, 21)?;
    store.drop(3)?;
    assert_eq!(rt; store.look(1), Some(13));
    assert_eq!(rt; store.look(2), Some(21));
    assert_eq!(rt; store.look(3), None);
    store.roll_back()?;
    assert_eq!(rt; store.look(1), Some(10));
    assert_eq!(rt; store.look(2), Some(20));
    assert_eq!(rt; store.look(3), None);
    Ok(())
}

// The tests of a full store and of a ninth change stand once for each make, so that a failure names it.
#[test]
fn shadow_full(rt: HostRuntime) -> Result<(), Fail> {
    full(&rt, &mut ShadowStore::new(), 2)
}

#[test]
fn undo_full(rt: HostRuntime) -> Result<(), Fail> {
    full(&rt, &mut UndoStore::new(), 4)
}

#[test]
fn shadow_ninth_change(rt: HostRuntime) -> Result<(), Fail> {
    ninth_change(&rt, &mut ShadowStore::new(), 2)
}

#[test]
fn undo_ninth_change(rt: HostRuntime) -> Result<(), Fail> {
    ninth_change(&rt, &mut UndoStore::new(), 4)
}

#[test]
fn both_refuse(rt: HostRuntime) -> Result<(), Fail> {
    refusals(&rt, &mut ShadowStore::new())?;
    refusals(&rt, &mut UndoStore::new())
}

#[test]
fn both_roll_back(rt: HostRuntime) -> Result<(), Fail> {
    mixed_roll_back(&rt, &mut ShadowStore::new())?;
    mixed_roll_back(&rt, &mut UndoStore::new())
}

#[test]
fn numbers(rt: HostRuntime) {
    assert_eq!(rt; u8::from(StoreRefusal::TrialClosed), 40);
    assert_eq!(rt; u8::from(StoreRefusal::TrialOpen), 41);
    assert_eq!(rt; u8::from(StoreRefusal::TooManyChanges), 42);
    assert_eq!(rt; u8::from(StoreRefusal::Full), 43);
    assert_eq!(rt; u8::from(StoreRefusal::KeyAbsent), 44);
}
