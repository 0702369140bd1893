//! The one seat that stores.
ghost use Rattle.std.specs.Prelude.{◌≡◌, ◌<◌, ◌^◌, slice_index, slice_set};
ghost use Rattle.pol_board.specs.Words.{word_of, number_of};

use crate::board::Board;
use crate::reader::Reader;
use crate::rule::{Copies, Remembered, Stores};
use crate::word::pack;
use atomic_table::Seat;
use mtp_codes::State;
use std::marker::Model;

/// The one publisher of a board. Contracts see its board and the words that it published last.
#[derive(Drop)]
pub struct Publisher {
    pub(crate) seat: Seat<u8, Remembered>,
}

impl Model for Publisher {
    ghost use Rattle.std.specs.Prelude.{◌≡◌, false};
    ghost use Rattle.pol_board.specs.Holders.{Holder, holder_code};

    ghost Value = { Holder };

    ghost coded = { holder_code };

    ghost view = { λ publisher. record { board = publisher.seat.table_id; words = publisher.seat.me.0.words } };

    ghost invariant = { λ publisher. (publisher.seat.id ≡ 0) × (publisher.seat.me.0.spent ≡ false) };
}

impl Publisher {
    /// Stores a word: a number below 2^46, higher than the one that was last published there, and a state, or None
    /// where nothing is reported. It never waits.
    pub fn publish(&mut self, board: &Board, word: u32, number: u64, state: Option<State>)
        requires board { self.old.board ≡ board.now }
        requires word { word < board.now.words }
        requires number { (number < 2 ^ 46) × (number_of (slice_index self.old.words word) < number) }
        ensures board { self.new.board ≡ self.old.board }
        ensures words { self.new.words ≡ slice_set self.old.words word (word_of number state) }
    {
        let packed = pack(number, state);
        board
            .table
            .shared
            .store::<Stores>(&mut self.seat, word as usize, packed);
    }

    /// A reader that knows what was published so far. It takes no memory and never waits.
    pub fn reader(&mut self, board: &Board) -> Reader
        requires board { self.old.board ≡ board.now }
        requires words { 0 < board.now.words }
        ensures same { self.new ≡ self.old }
        ensures told { (result.board ≡ self.old.board) × (result.words ≡ self.old.words) }
    {
        Reader {
            seat: board.table.shared.split_seat::<Copies>(&mut self.seat),
        }
    }
}
