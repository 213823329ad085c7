// The pools at work: order, the n-th that fits, a full row, a place used again, gaps.
use super::*;
use std::test::Fail;

fn note(reader: u8, text: u16) -> Note {
    Note { reader, text }
}

fn empty_board() -> Board {
    Board { places: [None; 8] }
}

fn full_board() -> Board {
    let mut board = empty_board();
    for text in 0..8 {
        let _ = board.put(note(1, text));
    }
    board
}

#[test]
fn order_is_kept(rt: HostRuntime) -> Result<(), Fail> {
    let mut board = empty_board();
    board.put(note(1, 10))?;
    board.put(note(1, 11))?;
    board.put(note(1, 12))?;
    assert_eq!(rt; board.take(&1, 0), Some(note(1, 10)));
    assert_eq!(rt; board.take(&1, 0), Some(note(1, 11)));
    assert_eq!(rt; board.take(&1, 0), Some(note(1, 12)));
    assert_eq!(rt; board.take(&1, 0), None);
    Ok(())
}

#[test]
fn nth_that_fits(rt: HostRuntime) -> Result<(), Fail> {
    let mut board = empty_board();
    board.put(note(1, 10))?;
    board.put(note(2, 20))?;
    board.put(note(1, 11))?;
    assert_eq!(rt; pools::nth(&board.places, &1, 1), Some(note(1, 11)));
    assert_eq!(rt; board.take(&1, 1), Some(note(1, 11)));
    assert_eq!(rt; board.take(&1, 1), None);
    assert_eq!(rt; board.take(&2, 0), Some(note(2, 20)));
    assert_eq!(rt; board.free(), 7);
    Ok(())
}

#[test]
fn full_row_refuses(rt: HostRuntime) {
    let mut board = full_board();
    assert_eq!(rt; board.free(), 0);
    assert_eq!(rt; board.put(note(1, 99)), Err(Refusal::NoPlace));
    assert_eq!(rt; pools::count(&board.places), 8);
    assert_eq!(rt; pools::nth(&board.places, &1, 7), Some(note(1, 7)));
}

#[test]
fn freed_place_is_used_again(rt: HostRuntime) {
    let mut board = full_board();
    assert_eq!(rt; board.take(&1, 3), Some(note(1, 3)));
    assert_eq!(rt; board.put(note(1, 99)), Ok(()));
    assert_eq!(rt; board.put(note(1, 100)), Err(Refusal::NoPlace));
    assert_eq!(rt; pools::nth(&board.places, &1, 3), Some(note(1, 4)));
    assert_eq!(rt; pools::nth(&board.places, &1, 7), Some(note(1, 99)));
}

#[test]
fn gaps_do_not_matter(rt: HostRuntime) {
    let mut places = [
        Some(note(1, 10)),
        None,
        Some(note(1, 11)),
        None,
        Some(note(2, 20)),
    ];
    assert_eq!(rt; pools::put(&mut places, note(1, 12)), Ok(()));
    assert_eq!(rt; pools::nth(&places, &1, 1), Some(note(1, 11)));
    assert_eq!(rt; pools::nth(&places, &1, 2), Some(note(1, 12)));
    assert_eq!(rt; places[4], Some(note(1, 12)));
    assert_eq!(rt; pools::free(&places), 1);
}

#[test]
fn sixty_four_letters(rt: HostRuntime) -> Result<(), Fail> {
    let mut office = Office {
        letters: Row { places: [None; 64] },
        street: 12,
    };
    let near = Desk { floor: 1, room: 1 };
    let far = Desk { floor: 9, room: 1 };
    for number in 0..64 {
        let desk = if number % 2 == 0 { near } else { far };
        office.post(Letter {
            number,
            desk,
            weight: 5,
        })?;
    }
    let more = Letter {
        number: 64,
        desk: far,
        weight: 5,
    };
    assert_eq!(rt; office.post(more), Err(Refusal::NoPlace));
    assert_eq!(rt; office.waiting_for(far), 32);
    assert_eq!(rt;
        office.deliver(far, 31),
        Some(Letter {
            number: 63,
            desk: far,
            weight: 5,
        })
    );
    assert_eq!(rt; office.post(more), Ok(()));
    assert_eq!(rt; office.deliver(far, 31), Some(more));
    Ok(())
}
