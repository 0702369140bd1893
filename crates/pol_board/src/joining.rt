//! The law of joining two readers' seats, which no call makes use of yet.
ghost use Rattle.pol_board.specs.Rules.{JoinsKeepTheRule};

/// Two seats of readers may become one: it remembers of each word the newer one, and the other seat is spent.
pub fn joins_keep_the_rule()
    ensures { JoinsKeepTheRule }
{}
