// Each refusal, at the first place and at the last at which it can be. The numbers are the rules' own,
// so they are tried as numbers.
use crate::building::{LOOK, PUT, add_part, full_parts};
use scripts::read_script;
use std::process::Abort;
use std::test::Fail;

fn check_refused(
    rt: &impl Abort,
    bytes: &[u8],
    services: u8,
    number: u8,
    place: usize,
) -> Result<(), Fail> {
    let refusal = read_script(bytes, services).err().ok_or("accepted")?;
    assert_eq!(rt; u8::from(refusal.reason), number);
    assert_eq!(rt; refusal.place, place);
    Ok(())
}

#[test]
fn shortest(rt: HostRuntime) -> Result<(), Fail> {
    check_refused(&rt, b"", 2, 24, 0)?;
    check_refused(&rt, &[1, 0], 2, 24, 2)?;
    check_refused(&rt, &[2], 2, 21, 0)?;
    check_refused(&rt, &[0xff], 2, 20, 0)?;
    check_refused(&rt, &[1, 0, 1, 1], 2, 24, 2)
}

#[test]
fn unknown_code(rt: HostRuntime) -> Result<(), Fail> {
    check_refused(&rt, &[0], 4, 20, 0)?;
    check_refused(&rt, &[7], 4, 20, 0)?;
    let mut bytes = full_parts(rt.alloc(), 4)?;
    bytes.push(7)?;
    check_refused(&rt, &bytes, 4, 20, 424)
}

#[test]
fn missing_operands(rt: HostRuntime) -> Result<(), Fail> {
    check_refused(&rt, &[1], 4, 21, 0)?;
    check_refused(&rt, &LOOK[0..8], 4, 21, 0)?;
    check_refused(&rt, &PUT[0..12], 4, 21, 0)?;
    let mut bytes = full_parts(rt.alloc(), 4)?;
    bytes.extend_from_slice(&PUT[0..12])?;
    check_refused(&rt, &bytes, 4, 21, 424)
}

// There is only one place before any part.
#[test]
fn operation_before_part(rt: HostRuntime) -> Result<(), Fail> {
    check_refused(&rt, &LOOK, 4, 22, 0)?;
    check_refused(&rt, &PUT, 4, 22, 0)
}

#[test]
fn no_such_service(rt: HostRuntime) -> Result<(), Fail> {
    check_refused(&rt, &[1, 0], 0, 23, 0)?;
    check_refused(&rt, &[1, 2], 2, 23, 0)?;
    let mut bytes = full_parts(rt.alloc(), 4)?;
    bytes.extend_from_slice(&[1, 4])?;
    check_refused(&rt, &bytes, 4, 23, 424)
}

#[test]
fn empty_part(rt: HostRuntime) -> Result<(), Fail> {
    check_refused(&rt, &[1, 0, 1, 0], 1, 24, 2)?;
    let mut bytes = full_parts(rt.alloc(), 3)?;
    bytes.extend_from_slice(&[1, 3])?;
    check_refused(&rt, &bytes, 4, 24, 320)?;
    bytes.extend_from_slice(&[1, 0])?;
    check_refused(&rt, &bytes, 4, 24, 320)
}

#[test]
fn service_named_twice(rt: HostRuntime) -> Result<(), Fail> {
    let mut bytes = Vec::new(rt.alloc());
    add_part(&mut bytes, 0, 1, &LOOK)?;
    add_part(&mut bytes, 0, 1, &LOOK)?;
    check_refused(&rt, &bytes, 1, 25, 11)?;
    let mut bytes = full_parts(rt.alloc(), 4)?;
    bytes.extend_from_slice(&[1, 3])?;
    check_refused(&rt, &bytes, 4, 25, 424)
}

#[test]
fn too_many_parts(rt: HostRuntime) -> Result<(), Fail> {
    let mut bytes = Vec::new(rt.alloc());
    for service in 0..5u8 {
        add_part(&mut bytes, service, 1, &LOOK)?;
    }
    check_refused(&rt, &bytes, 5, 26, 44)?;
    let mut bytes = full_parts(rt.alloc(), 4)?;
    bytes.extend_from_slice(&[1, 4])?;
    check_refused(&rt, &bytes, 5, 26, 424)
}

#[test]
fn too_many_operations(rt: HostRuntime) -> Result<(), Fail> {
    let mut bytes = Vec::new(rt.alloc());
    add_part(&mut bytes, 0, 9, &LOOK)?;
    check_refused(&rt, &bytes, 1, 27, 74)?;
    let mut bytes = full_parts(rt.alloc(), 4)?;
    bytes.extend_from_slice(&PUT)?;
    check_refused(&rt, &bytes, 4, 27, 424)
}
