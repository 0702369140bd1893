//! Words that are published and read.
use mtp_codes::State;
use pol_board::Board;
use std::test::*;

#[test]
fn a_reader_sees_what_was_published_and_looks_again(rt: HostRuntime) -> Result<(), Fail> {
    let (board, mut publisher) = Board::new(rt.alloc(), 4)?;
    publisher.publish(&board, 2, 5, Some(State::Execute));
    let mut reader = publisher.reader(&board);
    assert_eq!(rt; reader.read(&board, 2), (5, Some(State::Execute)));
    assert_eq!(rt; reader.read(&board, 0), (0, None));
    publisher.publish(&board, 2, 9, Some(State::Completing));
    assert_eq!(rt; reader.read(&board, 2), (9, Some(State::Completing)));
    Ok(())
}

#[test]
fn a_word_that_says_no_state_has_its_number_all_the_same(rt: HostRuntime) -> Result<(), Fail> {
    let (board, mut publisher) = Board::new(rt.alloc(), 2048)?;
    publisher.publish(&board, 2047, 70_368_744_177_663, None);
    let mut reader = publisher.reader(&board);
    assert_eq!(rt; reader.read(&board, 2047), (70_368_744_177_663, None));
    Ok(())
}
