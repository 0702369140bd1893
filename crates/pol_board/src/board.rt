//! The words that threads share.
ghost use Rattle.std.specs.Prelude.{◌≡◌, ◌<◌, ◌≤◌, replicate, IfOk};

use crate::publisher::Publisher;
use crate::rule::{BoardRule, Remembered};
use atomic_table::Table;
use std::alloc::{AllocError, Global};
use std::marker::Model;

/// The words of a status board, each of a number and a state. Threads share it by `&`; contracts see which board it is
/// and how many words it has.
#[derive(Drop)]
pub struct Board {
    pub(crate) table: Table<u8, Remembered, u64, BoardRule, Global>,
}

impl Model for Board {
    ghost use Rattle.atomic_table.specs.Seated.{TableId, table_id_coded};

    ghost Value = { TableId };

    ghost coded = { table_id_coded };

    ghost view = { λ board. board.table.shared.table_id };
}

impl Board {
    /// A board of 1 to 2,048 words, and the one publisher that stores them. Each word says the number 0 and no state.
    ///
    /// # Errors
    ///
    /// AllocError where there is no memory.
    pub fn new(alloc: Global, words: u32) -> Result<(Board, Publisher), AllocError>
        requires { (0 < words) × (words ≤ 2048) }
        ensures words { IfOk result (λ made. made.0.words ≡ words) }
        ensures publisher { IfOk result (λ made. made.1.board ≡ made.0) }
        ensures empty { IfOk result (λ made. made.1.words ≡ replicate words 0) }
    {
        let zeros = vec![in alloc; 0u64; words as usize]?;
        let (table, seat) = Table::of_words(alloc, zeros.as_slice(), &u64::from(words))?;
        Ok((Board { table }, Publisher { seat }))
    }
}
