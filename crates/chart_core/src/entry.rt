//! The entries of a batch's log.
ghost use Rattle.std.specs.Prelude.{◌≡◌, is_some};
ghost use Rattle.chart_core.specs.Entries.{chart_entry};

use super::readings::Readings;
use mtp_codes::{Command, Name, State};

/// An entry of a batch's log: what the batch did. Start, Finish, Reset, Stop, Hold and Unhold are commands to a service
/// of the module `tag`. Chose, Turn and Leave are decisions of the node `node`, with the readings by which it decided.
/// Broke and Left are a step's state as it was found, StopAsked is the operator's wish, and Asked is a command of the
/// operator's desk. The first seven kinds are the entries of a run of the chart.
#[derive(Clone, Copy, Debug, PartialEq, Eq)]
pub enum LogEntry {
    Start {
        step: Name,
        tag: Name,
        service: Name,
        procedure: u16,
    },
    Finish {
        step: Name,
        tag: Name,
        service: Name,
    },
    Reset {
        step: Name,
        tag: Name,
        service: Name,
    },
    End {
        step: Name,
    },
    Chose {
        node: u32,
        arm: u32,
        values: Readings,
    },
    Turn {
        node: u32,
        values: Readings,
    },
    Leave {
        node: u32,
        values: Readings,
    },
    Stop {
        step: Name,
        tag: Name,
        service: Name,
    },
    Broke {
        step: Name,
        state: State,
    },
    Left {
        step: Name,
        state: State,
    },
    StopAsked,
    Hold {
        step: Name,
        tag: Name,
        service: Name,
    },
    Unhold {
        step: Name,
        tag: Name,
        service: Name,
    },
    Asked {
        tag: Name,
        service: Name,
        command: Command,
    },
}

impl LogEntry {
    /// Whether the entry is one of a run of a chart: Start, Finish, Reset, End, Chose, Turn or Leave.
    pub fn is_of_chart(&self) -> bool
        ensures { result ≡ is_some (chart_entry self.now) }
    {
        !matches!(
            self,
            LogEntry::Stop { .. }
                | LogEntry::Broke { .. }
                | LogEntry::Left { .. }
                | LogEntry::StopAsked
                | LogEntry::Hold { .. }
                | LogEntry::Unhold { .. }
                | LogEntry::Asked { .. }
        )
    }
}
