//! Laws that what is written of a history can be read again: the audit finds it good, a replay of its events gives its
//! answers and its batch lines, and each answer and each entry is read back from its own line. Each is a law over all
//! legal histories, or over all answers or entries that a program holds: the contract of a function with an empty body.
//!
//! It knows nothing of how a history came about, nor of who writes it.
//!
//! Laws alone: no test tries them.
#![tactic(auto)]

ghost use Rattle.pol_retold.specs.Inputs.{InputsAreGood};
ghost use Rattle.pol_retold.specs.Replayed.{ReplaysAnswer};
ghost use Rattle.pol_retold.specs.Retold.{PlantsAreGood};
ghost use Rattle.pol_retold.specs.Told.{AnswersAreExact, AnswersAreRetold, EntriesAreRetold};

/// The lines that are written of a legal history of at most 20,000 entries say its entries, and the verdict over them
/// is good.
pub fn plants_are_good()
    ensures { PlantsAreGood }
{}

/// The bytes that are written of a legal history of at most 20,000 entries, cut into lines again, are audited good,
/// where no line is longer than a line may be.
pub fn inputs_are_good()
    ensures { InputsAreGood }
{}

/// The replay of a legal history's events gives its answers, its batch lines and the end line.
pub fn replays_answer()
    ensures { ReplaysAnswer }
{}

/// What is written of an answer that a program holds has just the tokens of the answer's object, and is read as it.
pub fn answers_are_exact()
    ensures { AnswersAreExact }
{}

/// What is written of an answer that a program holds is read as that answer, and is written of no other.
pub fn answers_are_retold()
    ensures { AnswersAreRetold }
{}

/// What is written of an entry that a program holds is read as that entry.
pub fn entries_are_retold()
    ensures { EntriesAreRetold }
{}
