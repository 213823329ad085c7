// A reader hands out the parts as stretches of the script.
use crate::building::{LOOK, add_part};
use scripts::{Reader, ScriptReason, ScriptRefusal};
use std::test::Fail;

#[test]
fn stretches(rt: HostRuntime) -> Result<(), Fail> {
    let mut bytes = Vec::new(rt.alloc());
    add_part(&mut bytes, 5, 2, &LOOK)?;
    add_part(&mut bytes, 3, 1, &LOOK)?;
    assert!(rt; bytes.len() == 31);
    let mut reader = Reader::new(&bytes, 6);
    let first = reader.next_part()?.ok_or("no first part")?;
    assert_eq!(rt; first.service, 5);
    assert_eq!(rt; first.place, 0);
    assert_eq!(rt; first.text, &bytes[0..20]);
    let second = reader.next_part()?.ok_or("no second part")?;
    assert_eq!(rt; second.service, 3);
    assert_eq!(rt; second.place, 20);
    assert_eq!(rt; second.text, &bytes[20..31]);
    assert!(rt; reader.next_part()?.is_none());
    Ok(())
}

// A refused part leaves the reader before it.
#[test]
fn refused_twice(rt: HostRuntime) {
    let bytes = [1, 0, 2, 0, 0, 0, 0, 0, 0, 0, 0, 9];
    let mut reader = Reader::new(&bytes, 1);
    let refusal = ScriptRefusal {
        reason: ScriptReason::UnknownCode,
        place: 11,
    };
    assert_eq!(rt; reader.next_part().err(), Some(refusal));
    assert_eq!(rt; reader.next_part().err(), Some(refusal));
}
