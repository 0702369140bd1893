//! A seat that loads.
ghost use Rattle.std.specs.Prelude.{◌≡◌, ◌<◌, slice_index, slice_set};
ghost use Rattle.pol_board.specs.Words.{word_of, IsOlder};

use crate::board::Board;
use crate::rule::{Loads, Remembered};
use crate::word::unpack;
use atomic_table::Seat;
use mtp_codes::State;
use std::marker::Model;

/// A reader of a board. Contracts see its board, and at each word what it saw there last or learnt of.
#[derive(Drop)]
pub struct Reader {
    pub(crate) seat: Seat<u8, Remembered>,
}

impl Model for Reader {
    ghost use Rattle.std.specs.Prelude.{◌≡◌, false};
    ghost use Rattle.pol_board.specs.Holders.{Holder, holder_code};

    ghost Value = { Holder };

    ghost coded = { holder_code };

    ghost view = { λ reader. record { board = reader.seat.table_id; words = reader.seat.me.0.words } };

    ghost invariant = { λ reader. reader.seat.me.0.spent ≡ false };
}

impl Reader {
    /// The number and the state of a word, None exactly where it says no state. The word is the one that this reader
    /// saw or learnt of there before, or one with a higher number. It never waits.
    pub fn read(&mut self, board: &Board, word: u32) -> (u64, Option<State>)
        requires board { self.old.board ≡ board.now }
        requires word { word < board.now.words }
        ensures board { self.new.board ≡ self.old.board }
        ensures newer { IsOlder (slice_index self.old.words word) (word_of result.0 result.1) }
        ensures seen { self.new.words ≡ slice_set self.old.words word (word_of result.0 result.1) }
    {
        let found = board
            .table
            .shared
            .load::<Loads>(&mut self.seat, word as usize);
        unpack(found)
    }
}
