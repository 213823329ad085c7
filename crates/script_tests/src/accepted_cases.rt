// Scripts that are accepted, and what they say.
use crate::building::full_parts;
use scripts::{Operation, read_script};
use std::test::Fail;

#[test]
fn two_parts(rt: HostRuntime) -> Result<(), Fail> {
    let bytes = [
        1, 1, // service 1
        3, 0, 0, 0, 0, 0, 0, 1, 2, 0, 0, 3, 4, // put
        2, 1, 0, 0, 0, 0, 0, 0, 0, // look
        1, 0, // service 0
        4, 0, 0, 0, 0, 0, 0, 0, 9, 0xff, 0xff, 0xff, 0xff, // need
        5, 0, 0, 0, 0, 0, 0, 0, 9, 0, 0, 1, 0, // add
        6, 0xff, 0xff, 0xff, 0xff, 0xff, 0xff, 0xff, 0xff, // drop
    ];
    let script = read_script(&bytes, 2)?;
    assert_eq!(rt; script.len(), 2);
    let first = script.part(0).ok_or("no first part")?;
    assert_eq!(rt; first.service, 1);
    assert_eq!(rt; first.place, 0);
    assert_eq!(rt; first.operations.len(), 2);
    assert_eq!(rt;
        first.operations.as_slice(),
        &[
            Operation::Put {
                key: 258,
                value: 772,
            },
            Operation::Look {
                key: 0x100000000000000,
            },
        ][..]
    );
    assert_eq!(rt; first.operations.get(2), None);
    let second = script.part(1).ok_or("no second part")?;
    assert_eq!(rt; second.service, 0);
    assert_eq!(rt; second.place, 24);
    assert_eq!(rt; second.operations.len(), 3);
    assert_eq!(rt;
        second.operations.as_slice(),
        &[
            Operation::Need {
                key: 9,
                value: 0xffffffff,
            },
            Operation::Add { key: 9, value: 256 },
            Operation::Drop {
                key: 0xffffffffffffffff,
            },
        ][..]
    );
    assert!(rt; script.part(2).is_none());
    Ok(())
}

#[test]
fn greatest(rt: HostRuntime) -> Result<(), Fail> {
    let bytes = full_parts(rt.alloc(), 4)?;
    assert_eq!(rt; bytes.len(), 424);
    let script = read_script(&bytes, 4)?;
    assert_eq!(rt; script.len(), 4);
    let last = script.part(3).ok_or("no last part")?;
    assert_eq!(rt; last.service, 3);
    assert_eq!(rt; last.place, 318);
    assert_eq!(rt; last.operations.len(), 8);
    assert_eq!(rt;
        last.operations.get(7),
        Some(Operation::Put { key: 7, value: 1 })
    );
    Ok(())
}
