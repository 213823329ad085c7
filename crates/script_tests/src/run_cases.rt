// Worked examples of parts that are run on a bank.
use banks::{Bank, BankRefusal, Both, One};
use parts::{ABSENT, Cause, Vote, run_part};
use scripts::{OperationList, read_script};
use std::test::Fail;
use stores::{ShadowStore, Store, StoreRefusal, UndoStore};

type Two = Both<One<ShadowStore>, One<UndoStore>>;

// The operations of a script's first part.
fn operations(bytes: &[u8]) -> Result<OperationList, Fail> {
    let part = read_script(bytes, 2)?.part(0).ok_or("no part")?;
    Ok(part.operations)
}

fn no(operation: usize, cause: Cause) -> Vote {
    Vote::No { operation, cause }
}

fn by_store(why: StoreRefusal) -> Cause {
    Cause::ByBank(BankRefusal::ByStore(why))
}

fn votes(bank: &mut Two, bytes: &[u8]) -> Result<Vote, Fail> {
    let operations = operations(bytes)?;
    Ok(run_part(bank, 1, &operations).vote)
}

// 4294967290 under key 1, and 5 or 6 added to it.
#[test]
fn sums(rt: HostRuntime) -> Result<(), Fail> {
    let mut bank = Two::default();
    bank.begin(1)?;
    bank.put(1, 1, 4294967290)?;
    assert_eq!(rt;
        votes(&mut bank, &[1, 0, 5, 0, 0, 0, 0, 0, 0, 0, 1, 0, 0, 0, 6])?,
        no(0, Cause::SumTooLarge)
    );
    assert_eq!(rt; u8::from(Cause::SumTooLarge), 46);
    assert_eq!(rt;
        votes(&mut bank, &[1, 0, 5, 0, 0, 0, 0, 0, 0, 0, 1, 0, 0, 0, 5])?,
        Vote::Yes
    );
    assert_eq!(rt; bank.look(1, 1)?, Some(4294967295));
    assert_eq!(rt;
        votes(&mut bank, &[1, 0, 5, 0, 0, 0, 0, 0, 0, 0, 2, 0, 0, 0, 0])?,
        no(0, by_store(StoreRefusal::KeyAbsent))
    );
    Ok(())
}

// NEED of 0 on an absent key fails; NEED of the value passes.
#[test]
fn needs(rt: HostRuntime) -> Result<(), Fail> {
    let mut bank = Two::default();
    bank.begin(1)?;
    assert_eq!(rt;
        votes(&mut bank, &[1, 0, 4, 0, 0, 0, 0, 0, 0, 0, 1, 0, 0, 0, 0])?,
        no(0, Cause::NotAsNeeded)
    );
    assert_eq!(rt; u8::from(Cause::NotAsNeeded), 45);
    bank.put(1, 1, 9)?;
    assert_eq!(rt;
        votes(&mut bank, &[1, 0, 4, 0, 0, 0, 0, 0, 0, 0, 1, 0, 0, 0, 9])?,
        Vote::Yes
    );
    Ok(())
}

// A part stops at the first operation that fails, and another store is not touched.
#[test]
fn stops_at_the_first(rt: HostRuntime) -> Result<(), Fail> {
    let mut bank = Two::default();
    bank.begin(0)?;
    bank.begin(1)?;
    let vote = votes(
        &mut bank,
        &[
            1, 0, 3, 0, 0, 0, 0, 0, 0, 0, 1, 0, 0, 0, 7, 6, 0, 0, 0, 0, 0, 0, 0, 2, 3, 0, 0, 0, 0,
            0, 0, 0, 3, 0, 0, 0, 8,
        ],
    )?;
    assert_eq!(rt; vote, no(1, by_store(StoreRefusal::KeyAbsent)));
    assert_eq!(rt; bank.look(1, 1)?, Some(7));
    assert_eq!(rt; bank.look(1, 3)?, None);
    assert_eq!(rt; bank.look(0, 1)?, None);
    Ok(())
}

// Look numbers come in the order of the looks; an absent key gives 4294967296.
#[test]
fn looks_in_order(rt: HostRuntime) -> Result<(), Fail> {
    let mut bank = Two::default();
    bank.begin(1)?;
    let operations = operations(&[
        1, 0, 2, 0, 0, 0, 0, 0, 0, 0, 1, 3, 0, 0, 0, 0, 0, 0, 0, 1, 0, 0, 0, 7, 2, 0, 0, 0, 0, 0,
        0, 0, 1,
    ])?;
    let ran = run_part(&mut bank, 1, &operations);
    assert_eq!(rt; ran.looks.as_slice(), &[ABSENT, 7][..]);
    Ok(())
}

// On a closed trial a change is refused, and where there is no such store the vote is no.
#[test]
fn nowhere_to_run(rt: HostRuntime) -> Result<(), Fail> {
    let mut bank = Two::default();
    let operations = operations(&[1, 0, 3, 0, 0, 0, 0, 0, 0, 0, 1, 0, 0, 0, 7])?;
    assert_eq!(rt;
        run_part(&mut bank, 1, &operations).vote,
        no(0, by_store(StoreRefusal::TrialClosed))
    );
    assert_eq!(rt;
        run_part(&mut bank, 2, &operations).vote,
        no(0, Cause::ByBank(BankRefusal::NoSuchStore))
    );
    Ok(())
}
