//! The board of jobs.

use claim_board::Board;
use std::test::Fail;

#[test]
fn a_board_ends_where_nothing_was_drawn(rt: HostRuntime) -> Result<(), Fail> {
    let (board, seat) = Board::new(rt.alloc(), 2)?;
    assert_eq!(rt; board.close(seat), 0);
    Ok(())
}

#[test]
fn two_seats_draw_each_number_once(rt: HostRuntime) -> Result<(), Fail> {
    let (board, seat) = Board::new(rt.alloc(), 2)?;
    let mut seat = seat;
    let mut other = board.split(&mut seat);
    assert_eq!(rt; board.draw(&mut other), Some(0));
    assert_eq!(rt; board.draw(&mut seat), Some(1));
    assert_eq!(rt; board.draw(&mut other), None);
    assert_eq!(rt; board.look(&mut seat), u64::MAX);
    board.join(&mut seat, other);
    assert_eq!(rt; board.close(seat), 3);
    Ok(())
}
