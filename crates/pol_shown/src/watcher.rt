//! Who looks at every word of a board, again and again.
ghost use Rattle.std.specs.Prelude.{◌≡◌};
ghost use Rattle.pol_board.specs.Words.{AreOlder};

use pol_board::{Board, Reader};
use std::marker::Model;
use std::sync::Arc;

/// A reader with its board. Contracts see which board it is, and at each word what was seen there last or what the
/// reader was given.
#[derive(Drop)]
pub struct Watcher {
    board: Arc<Board>,
    reader: Reader,
    words: u32,
}

impl Model for Watcher {
    ghost use Rattle.std.specs.Prelude.{◌≡◌};
    ghost use Rattle.pol_board.specs.Holders.{Holder, holder_code};

    ghost Value = { Holder };

    ghost coded = { holder_code };

    ghost view = { λ watcher. watcher.reader };

    ghost invariant = { λ watcher. (watcher.reader.board ≡ watcher.board.value)
        × (watcher.words ≡ watcher.board.value.words) };
}

impl Watcher {
    /// The reader with its board, which has this many words.
    pub(crate) fn new(board: Arc<Board>, reader: Reader, words: u32) -> Watcher
        requires board { reader.board ≡ board.value }
        requires words { words ≡ board.value.words }
        ensures { result ≡ reader }
    {
        Watcher {
            board,
            reader,
            words,
        }
    }

    /// Reads every word of the board once. At no word anything older is found than what was seen there or given before.
    /// It never waits.
    pub fn look(&mut self)
        ensures board { self.new.board ≡ self.old.board }
        ensures newer { AreOlder self.old.words self.new.words }
    {
        for word in 0..self.words {
            let _ = self.reader.read(&self.board, word);
        }
    }
}
