//! The rule of the board: what holds of its words and of all that its seats remember, and the kinds of step that keep
//! it.
use atomic_table::{Play, Split, TableRule};

/// What a seat remembers of the words: each as it saw it last or learnt of it. A seat that was joined to another is
/// spent. It lives in proofs alone; no value of it is made.
pub struct Remembered {
    /// Whether the seat was joined to another one.
    pub spent: bool,
    /// The words that it remembers.
    pub words: [u64; 0],
}

/// The publisher, seat 0, remembers the words as they are; each other seat remembers each word as it is or an older
/// one.
pub struct BoardRule;

impl TableRule<u8, Remembered, u64> for BoardRule {
    ghost use Rattle.std.specs.Prelude.{replicate};
    ghost use Rattle.pol_board.specs.Rules.{KeepsRule, remembers};

    ghost holds = { λ _. KeepsRule };

    ghost first = { λ count. remembers (replicate count 0) };
}

/// A load: the seat remembers what it finds.
pub struct Loads;

impl Play<u8, Remembered> for Loads {
    ghost use Rattle.pol_board.specs.Rules.{IsLoad};

    ghost then = { IsLoad };
}

/// A store: the seat remembers what it stored.
pub struct Stores;

impl Play<u8, Remembered> for Stores {
    ghost use Rattle.pol_board.specs.Rules.{IsStore};

    ghost then = { IsStore };
}

/// A new seat remembers what the first one does.
pub struct Copies;

impl Split<Remembered> for Copies {
    ghost left = { λ first. first };

    ghost right = { λ first. first };
}
