// Worked examples of banks.
use banks::{Bank, BankRefusal, Both, One, OpenTrial, begin_all, roll_back_all};
use std::test::Fail;
use stores::{ShadowStore, Store, StoreRefusal, UndoStore};

type Two = Both<One<ShadowStore>, One<UndoStore>>;

type Four = Both<Two, Two>;

// Ten stores joined: the last two are not in the bank.
#[test]
fn more_than_eight(rt: HostRuntime) -> Result<(), Fail> {
    let mut bank = Both {
        left: Both {
            left: Four::default(),
            right: Two::default(),
        },
        right: Four::default(),
    };
    assert_eq!(rt; bank.count(), 8);
    for service in 0..8u8 {
        bank.begin(service)?;
        bank.put(service, 1, u32::from(service))?;
    }
    assert_eq!(rt; bank.begin(8), Err(BankRefusal::NoSuchStore));
    assert_eq!(rt; bank.look(8, 1), Err(BankRefusal::NoSuchStore));
    assert_eq!(rt; bank.put(9, 1, 1), Err(BankRefusal::NoSuchStore));
    for service in 0..8u8 {
        bank.commit(service)?;
        assert_eq!(rt; bank.look(service, 1), Ok(Some(u32::from(service))));
    }
    assert_eq!(rt; u8::from(BankRefusal::NoSuchStore), 2);
    Ok(())
}

#[test]
fn one_store(rt: HostRuntime) {
    let mut bank = One::<ShadowStore>::default();
    assert_eq!(rt; bank.count(), 1);
    assert_eq!(rt; bank.begin(1), Err(BankRefusal::NoSuchStore));
    assert_eq!(rt; bank.drop(255, 1), Err(BankRefusal::NoSuchStore));
    assert_eq!(rt;
        bank.roll_back(0),
        Err(BankRefusal::ByStore(StoreRefusal::TrialClosed))
    );
    assert_eq!(rt; bank.commit(1), Err(BankRefusal::NoSuchStore));
}

// Trials are begun in all stores or in none.
#[test]
fn begin_all_or_none(rt: HostRuntime) -> Result<(), Fail> {
    let mut bank = Four::default();
    bank.begin(2)?;
    assert_eq!(rt; begin_all(&mut bank), Err(OpenTrial { service: 2 }));
    assert_eq!(rt;
        bank.put(0, 1, 1),
        Err(BankRefusal::ByStore(StoreRefusal::TrialClosed))
    );
    roll_back_all(&mut bank);
    assert!(rt; begin_all(&mut bank).is_ok());
    assert_eq!(rt; bank.put(3, 1, 1), Ok(()));
    Ok(())
}
