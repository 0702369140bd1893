//! Events, and their pairs with an answer.
use super::answer::Answer;
use chart_core::Chart;
use mtp_assembly::ServiceControl;
use mtp_codes::{Command, Name, Value};
use mtp_desc::Description;
use std::sync::Arc;

/// The module that plays a role of a batch's chart.
#[derive(Clone, Copy, Debug, PartialEq, Eq)]
pub struct Bind {
    /// The role of the chart.
    pub role: Name,
    /// The tag under which the module is docked.
    pub tag: Name,
}

/// Something that happens in the plant. `at` is a stamp in whole milliseconds; it is kept and never compared.
#[derive(Drop)]
pub enum Event {
    /// A module with this description is docked under a tag.
    Plug {
        at: u64,
        tag: Name,
        desc: Arc<Description>,
    },
    /// A module leaves its tag.
    Unplug {
        at: u64,
        tag: Name,
    },
    /// A service of a docked module reports its state, its mode and what it enables.
    Report {
        at: u64,
        tag: Name,
        service: Name,
        control: ServiceControl,
    },
    /// A docked module reports the value of a variable.
    Variable {
        at: u64,
        tag: Name,
        name: Name,
        value: Value,
    },
    /// A recipe is made known.
    Recipe {
        at: u64,
        recipe: Name,
        chart: Arc<Chart>,
    },
    /// A batch of a recipe is started: it holds the modules that it binds, and only reads the variables of those that
    /// it watches. Both are in byte order of the roles.
    Start {
        at: u64,
        batch: Name,
        recipe: Name,
        bind: Vec<Bind>,
        watch: Vec<Bind>,
    },
    /// A batch is to do its next entry.
    Advance {
        at: u64,
        batch: Name,
    },
    /// A batch is to wait until it is thawed, and where `hold` is true its running services are to be held.
    Freeze {
        at: u64,
        batch: Name,
        hold: bool,
    },
    /// A frozen batch is to go on.
    Thaw {
        at: u64,
        batch: Name,
    },
    /// A batch is to be stopped step by step.
    StopBatch {
        at: u64,
        batch: Name,
    },
    /// A batch is given up where it stands; no command is sent.
    Abandon {
        at: u64,
        batch: Name,
    },
    /// An operator commands a service.
    Desk {
        at: u64,
        tag: Name,
        service: Name,
        command: Command,
    },
    /// A module is taken away to be exchanged.
    ExchangeBegin {
        at: u64,
        tag: Name,
    },
    /// A module with this description takes the place of the one that is away.
    ExchangeEnd {
        at: u64,
        tag: Name,
        ticket: u32,
        desc: Arc<Description>,
    },
    /// The module that is away comes back.
    ExchangeCancel {
        at: u64,
        tag: Name,
        ticket: u32,
    },
}

/// An event with the answer that the plant gave.
#[derive(Drop)]
pub struct Entry {
    /// What happened.
    pub event: Event,
    /// What the plant answered.
    pub answer: Answer,
}
