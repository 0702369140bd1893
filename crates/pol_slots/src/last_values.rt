//! The last values of named things.
ghost use Rattle.std.specs.Prelude.{◌≡◌, ℕ, List, [], Some, None, OnOk, OnErr, if◌then◌else◌};
ghost use Rattle.std.specs.Map.{lookup};
ghost use Rattle.std.specs.Str.{bytes_eq};
ghost use Rattle.mtp_codes.specs.Faults.{done_unless};
ghost use Rattle.pol_events.specs.Refusals.{may_follow, not_an_edge};
ghost use Rattle.pol_slots.specs.LastValues.{Puts, Forgets, SameLastValues, report_rule};

use indexmap::IndexMap;
use mtp_assembly::ServiceControl;
use mtp_codes::{Name, State};
use mtp_machine::edge;
use pol_events::Rule;
use std::alloc::{AllocError, Global};
use std::marker::Model;

// A state may follow the one reported last: it is the same, or an edge leads to it.
fn may_follow(from: State, to: State) -> bool
    ensures { result ≡ may_follow from to }
{
    from == to || edge(from, to)
}

// The state may follow what was reported last, if anything was.
fn follows(last: Option<ServiceControl>, state: State) -> Result<(), Rule>
    ensures { result ≡ done_unless (not_an_edge state last) }
{
    match last {
        Some(last) if !may_follow(last.state, state) => Err(Rule::NotAnEdge {
            from: last.state,
            to: state,
        }),
        _ => Ok(()),
    }
}

/// The last value of each of some names, in the order in which the names were added; none at first.
#[derive(Drop)]
pub(crate) struct LastValues<T> {
    values: IndexMap<Name, Option<T>>,
}

impl<T> Model for LastValues<T> {
    ghost use Rattle.std.specs.Prelude.{ℕ, List, Option};

    ghost Value = { List (List ℕ × Option T) };

    ghost view = { λ last_values. last_values.values.entries };
}

impl<T: Copy + Drop> LastValues<T> {
    /// No names.
    pub(crate) fn new(alloc: Global) -> LastValues<T>
        ensures { result ≡ [] }
    {
        LastValues {
            values: IndexMap::new(alloc),
        }
    }

    /// Adds a name, without a value.
    pub(crate) fn add(&mut self, name: Name) -> Result<(), AllocError>
        ensures { OnOk result ((other : List ℕ) → lookup (bytes_eq other) self.new
            ≡ (if bytes_eq name other then Some None else lookup (bytes_eq other) self.old)) }
    {
        self.values.insert(name, None)?;
        Ok(())
    }

    /// The last value of the name, if it has one; None where it isn't one of these.
    pub(crate) fn last(&self, name: Name) -> Option<Option<T>>
        ensures { result ≡ lookup (bytes_eq name) self.now }
    {
        self.values.get(&name).copied()
    }

    /// Puts a value as the last one of the name, if it is one of these.
    #[inline(always)]
    pub(crate) fn put(&mut self, name: Name, value: T)
        ensures { Puts name value self.old self.new }
    {
        if let Some(last) = self.values.get_mut(&name) {
            *last = Some(value);
        }
    }

    /// Forgets all values.
    pub(crate) fn forget(&mut self)
        ensures { Forgets self.old self.new }
    {
        for place in 0..self.values.len() {
            let (_, last) = self.values.pair_mut(place);
            *last = None;
        }
    }
}

impl LastValues<ServiceControl> {
    /// Puts what a service reports as its last control, where its state may follow the one before.
    ///
    /// `NoService` where the service isn't one of these, `NotAnEdge` where the state may not follow; then all stays.
    #[inline(always)]
    pub(crate) fn report(&mut self, service: Name, control: ServiceControl) -> Result<(), Rule>
        ensures answer { result ≡ done_unless (report_rule control.state (lookup (bytes_eq service) self.old)) }
        ensures reported { OnOk result (Puts service control self.old self.new) }
        ensures unchanged { OnErr result (SameLastValues self.old self.new) }
    {
        match self.values.get_mut(&service) {
            None => Err(Rule::NoService),
            Some(last) => {
                follows(*last, control.state)?;
                *last = Some(control);
                Ok(())
            }
        }
    }
}
