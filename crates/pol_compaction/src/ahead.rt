//! What lies ahead of a module, on the way back over a history.
ghost use Rattle.std.specs.Prelude.{◌≡◌, IfOk, OnOk};
ghost use Rattle.std.specs.Map.{lookup};
ghost use Rattle.std.specs.Str.{bytes_eq};
ghost use Rattle.mtp_machine.specs.Machine.{same_state};
ghost use Rattle.pol_events.specs.Events.{plain_event};
ghost use Rattle.pol_compaction.specs.Ahead.{ahead_with, fate_ahead, mark_ahead, nothing_ahead, plain_ahead, turned};
ghost use Rattle.pol_compaction.specs.Fates.{report_fate, unless_replaced, value_fate};

use indexmap::IndexMap;
use mtp_assembly::ServiceControl;
use mtp_codes::{Name, State, Value};
use pol_events::Event;
use std::alloc::{AllocError, Global};

/// What becomes of an entry, by what comes after it.
#[derive(Clone, Copy)]
pub enum Fate {
    /// It stays.
    Stays,
    /// It stays where its module was read since the module was moved last.
    StaysIfRead,
    /// It goes.
    Goes,
}

/// What happens to a module beside what it reports.
#[derive(Clone, Copy)]
pub enum Turn {
    /// A batch reads it.
    Read,
    /// It comes or leaves.
    Moved,
}

/// What lies ahead of a module.
#[derive(Drop)]
pub struct Ahead {
    /// Whether another module is put in its place, or none.
    pub replaced: bool,
    /// What happens to it next.
    pub turn: Option<Turn>,
    /// What its services report next, where they do before that.
    pub controls: IndexMap<Name, ServiceControl>,
    /// The next values of its variables, where they are reported before that.
    pub values: IndexMap<Name, Value>,
}

// Whether the two are one state.
fn is_same(state: State, other: State) -> bool
    ensures { result ≡ same_state state other }
{
    state == other
}

// The fate of a report of this state, by what its service reports before the module's next turn.
fn report_fate(state: State, next: Option<ServiceControl>, turn: Option<Turn>) -> Fate
    ensures { result ≡ report_fate state (mark_ahead next turn) }
{
    match (next, turn) {
        (Some(control), _) if is_same(control.state, state) => Fate::Goes,
        (Some(_), _) => Fate::StaysIfRead,
        (None, Some(Turn::Moved)) => Fate::StaysIfRead,
        (None, _) => Fate::Stays,
    }
}

// The fate of a value, by the next value of its variable before the module's next turn.
fn value_fate(next: Option<Value>, turn: Option<Turn>) -> Fate
    ensures { result ≡ value_fate (mark_ahead next turn) }
{
    match (next, turn) {
        (Some(_), _) | (None, Some(Turn::Moved)) => Fate::Goes,
        (None, _) => Fate::Stays,
    }
}

impl Ahead {
    /// Nothing lies ahead.
    pub fn new(alloc: Global) -> Ahead
        ensures { plain_ahead result ≡ nothing_ahead }
    {
        Ahead {
            replaced: false,
            turn: None,
            controls: IndexMap::new(alloc),
            values: IndexMap::new(alloc),
        }
    }

    // This fate, unless the module is replaced.
    fn unless_replaced(&self, fate: Fate) -> Fate
        ensures { result ≡ unless_replaced self.now.replaced fate }
    {
        if self.replaced { Fate::Goes } else { fate }
    }

    // The module is read or moved, before all that was ahead.
    fn turn_to(&mut self, turn: Turn, replaced: bool)
        ensures { plain_ahead self.new ≡ turned turn replaced }
    {
        self.replaced = replaced;
        self.turn = Some(turn);
        self.controls.clear();
        self.values.clear();
    }

    /// Goes back over one more event that lasts and is of the module, or reads it. Gives the fate of that event.
    pub fn meet(&mut self, event: &Event) -> Result<Fate, AllocError>
        ensures fate { IfOk result (λ fate. fate ≡ fate_ahead (plain_ahead self.old) (plain_event event.now)) }
        ensures met { OnOk result (plain_ahead self.new ≡ ahead_with (plain_event event.now) (plain_ahead self.old)) }
    {
        let fate = self.unless_replaced(Fate::Stays);
        match event {
            Event::Report {
                service,
                control,
                ..
            } => {
                let next = self.controls.insert(*service, *control)?;
                Ok(self.unless_replaced(report_fate(control.state, next, self.turn)))
            }
            Event::Variable { name, value, .. } => {
                let next = self.values.insert(*name, *value)?;
                Ok(self.unless_replaced(value_fate(next, self.turn)))
            }
            Event::Plug { .. } => {
                self.turn_to(Turn::Moved, true);
                Ok(fate)
            }
            Event::Unplug { .. } => {
                self.turn_to(Turn::Moved, true);
                Ok(Fate::Goes)
            }
            Event::ExchangeBegin { .. }
            | Event::ExchangeEnd { .. }
            | Event::ExchangeCancel { .. } => {
                self.turn_to(Turn::Moved, self.replaced);
                Ok(fate)
            }
            Event::Desk { .. } => Ok(Fate::Stays),
            _ => {
                self.turn_to(Turn::Read, self.replaced);
                Ok(Fate::Stays)
            }
        }
    }
}
