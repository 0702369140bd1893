//! Answers, and the rules by which an event is refused.
use chart_core::{LogEntry, Outcome, Why};
use mtp_assembly::ValueFault;
use mtp_codes::{Forbid, Name, State};

/// Why an event is refused. A rule's number and name are those of its answer line; docs/RULES.md says when each holds.
#[derive(Clone, Copy, Debug, PartialEq, Eq)]
pub enum Rule {
    TagTaken,
    NoModule {
        tag: Name,
    },
    PlantFull,
    Held {
        batch: Name,
    },
    InExchange {
        tag: Name,
        ticket: u32,
    },
    NotInExchange,
    WrongTicket {
        kept: u32,
        given: u32,
    },
    NoService,
    NotAnEdge {
        from: State,
        to: State,
    },
    NoVariable,
    WrongKind,
    RecipeKnown,
    NoRecipe,
    BatchKnown,
    NoBatch,
    BatchClosed,
    RoleUnbound {
        role: Name,
    },
    RoleUnknown {
        role: Name,
    },
    OneModuleTwice {
        tag: Name,
    },
    WrongType {
        role: Name,
    },
    WrongVersion {
        role: Name,
    },
    NotCovered {
        missing: Name,
    },
    NotReported {
        tag: Name,
        name: Name,
    },
    NotIdle {
        tag: Name,
        service: Name,
        state: State,
    },
    Busy {
        tag: Name,
        batch: Name,
    },
    BatchesFull,
    NotAtRest {
        service: Name,
        state: State,
    },
    ActiveStep {
        batch: Name,
        step: Name,
    },
    HeldBack {
        batch: Name,
        missing: Name,
    },
    ModeForbids,
    StateForbids,
    NotEnabled,
    OutOfRange,
    NotFrozen,
    AlreadyFrozen,
    SelfCompletes,
    RecipesFull,
    HistoryFull,
    Watched {
        batch: Name,
    },
    WatchedStep {
        role: Name,
    },
}

impl From<ValueFault> for Rule {
    ghost use Rattle.std.specs.Prelude.{◌≡◌};
    ghost use Rattle.pol_events.specs.Refusals.{value_rule};

    ghost from_gives = { λ fault rule. rule ≡ value_rule fault };

    fn from(fault: ValueFault) -> Rule {
        match fault {
            ValueFault::WrongKind => Rule::WrongKind,
            ValueFault::OutOfRange => Rule::OutOfRange,
        }
    }
}

impl From<Forbid> for Rule {
    ghost use Rattle.std.specs.Prelude.{◌≡◌};
    ghost use Rattle.pol_events.specs.Refusals.{forbid_rule};

    ghost from_gives = { λ forbid rule. rule ≡ forbid_rule forbid };

    fn from(forbid: Forbid) -> Rule {
        match forbid {
            Forbid::ModeForbids => Rule::ModeForbids,
            Forbid::SelfCompletes => Rule::SelfCompletes,
            Forbid::StateForbids => Rule::StateForbids,
            Forbid::NotEnabled => Rule::NotEnabled,
        }
    }
}

/// What the plant answers to an event.
#[derive(Clone, Copy, Debug, PartialEq, Eq)]
pub enum Answer {
    /// The event was accepted.
    Done,
    /// The exchange has begun; its end or its cancelling has to show this ticket.
    Ticket(u32),
    /// The batch took this entry into its log; or the operator's command went to its service.
    Did(LogEntry),
    /// The batch waits for this obstacle.
    Waiting(Why),
    /// The batch is closed, and its modules are free.
    Closed(Outcome),
    /// The event was refused, and nothing but the history changed.
    Refused(Rule),
}

impl Answer {
    ghost use Rattle.std.specs.Prelude.{◌≡◌};
    ghost use Rattle.pol_events.specs.Accepted.{is_accepted};

    /// Whether the answer is no refusal.
    pub fn is_accepted(&self) -> bool
        ensures { result ≡ is_accepted self.now }
    {
        !matches!(self, Answer::Refused(_))
    }
}
