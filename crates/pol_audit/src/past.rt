//! A history that is looked back at, with its index.
ghost use Rattle.std.specs.Prelude.{◌≡◌, length};
ghost use Rattle.pol_events.specs.Events.{plain_history};

use crate::log::Log;
use crate::places::Places;
use crate::recipes::Recipes;
use chart_cursor::Cursor;
use mtp_assembly::ServiceControl;
use mtp_codes::{Name, Value};
use pol_events::Entry;
use std::marker::Model;

/// The entries of a history, and the index of them. Each look back goes over those that concern its name.
#[derive(Drop)]
pub struct Past<'a, 'b> {
    pub entries: &'a [Entry],
    pub places: &'b Places<'a>,
}

impl<'a, 'b> Model for Past<'a, 'b> {
    ghost use Rattle.std.specs.Prelude.{List};
    ghost use Rattle.std.specs.Coded.{codes};
    ghost use Rattle.pol_events.specs.contracts.event.Entry as entry_type;
    ghost use Rattle.pol_events.specs.Events.{plain_history};
    ghost use Rattle.pol_events.specs.declared.event.Entry.{Entry};
    ghost use Rattle.pol_audit.specs.Placed.{IsPlaced};

    ghost Value = { List Entry };

    ghost coded = { Prim.hlevel (codes, entry_type.the_row.coded) };

    ghost view = { λ past. past.entries.now };

    ghost invariant = { λ past. IsPlaced past.places.now (plain_history past.entries.now) };
}

impl<'a> Past<'a, '_> {
    ghost use Rattle.std.specs.Prelude.{IfSome, filter};
    ghost use Rattle.chart_cursor.specs.Logs.{chart_entries};
    ghost use Rattle.pol_history.specs.Looking.{past, past_of_batch, recipes};
    ghost use Rattle.pol_history.specs.Batches.{is_start, log_by};
    ghost use Rattle.pol_history.specs.Modules.{control_by, present_tags, value_by};
    ghost use Rattle.pol_audit.specs.Followed.{GoesAlong};
    ghost use Rattle.pol_audit.specs.Listed.{listed};
    ghost use Rattle.pol_audit.specs.Placed.{asks, closes, freezes, moves, starts};

    /// How many entries the history has.
    pub fn len(&self) -> usize
        ensures { result ≡ length self.now }
    {
        self.entries.len()
    }

    /// The entries that move the module.
    pub fn moves(&self, tag: Name) -> &[&'a Entry]
        ensures { listed result.now ≡ filter moves (past tag (plain_history self.now)) }
    {
        self.places.modules.moves.of(tag)
    }

    /// What the service of the module reported last since the module was docked.
    pub fn control(&self, tag: Name, service: Name) -> Option<ServiceControl>
        ensures { result ≡ control_by service (past tag (plain_history self.now)) }
    {
        self.places.modules.controls.last(tag, service)
    }

    /// The value with which the variable of the module was reported last since the module was docked.
    pub fn value(&self, tag: Name, name: Name) -> Option<Value>
        ensures { result ≡ value_by name (past tag (plain_history self.now)) }
    {
        self.places.modules.values.last(tag, name)
    }

    /// The starts of the batch.
    pub fn starts_of(&self, batch: Name) -> &[&'a Entry]
        ensures { listed result.now ≡ filter starts (past_of_batch batch (plain_history self.now)) }
    {
        self.places.batches.starts.of(batch)
    }

    /// The entries that close the batch.
    pub fn closings(&self, batch: Name) -> &[&'a Entry]
        ensures { listed result.now ≡ filter closes (past_of_batch batch (plain_history self.now)) }
    {
        self.places.batches.closings.of(batch)
    }

    /// The freezes, thaws and stops of the batch.
    pub fn freezings(&self, batch: Name) -> &[&'a Entry]
        ensures { listed result.now ≡ filter freezes (past_of_batch batch (plain_history self.now)) }
    {
        self.places.batches.freezings.of(batch)
    }

    /// The entries that freeze the batch or ask a step of it to hold.
    pub fn askings(&self, batch: Name) -> &[&'a Entry]
        ensures { listed result.now ≡ filter asks (past_of_batch batch (plain_history self.now)) }
    {
        self.places.batches.askings.of(batch)
    }

    /// The batch's log, the oldest entry first.
    pub fn log(&self, batch: Name) -> Log<'_>
        ensures { result.whole.now ≡ log_by (past_of_batch batch (plain_history self.now)) }
    {
        let logs = &self.places.logs;
        let standings = &self.places.standings;
        Log {
            whole: logs.logs.of(batch),
            run: logs.runs.of(batch),
            halts: logs.halts.of(batch),
            running: standings.running.of(batch),
            held: standings.held.of(batch),
        }
    }

    /// The accepted recipes.
    pub fn recipes(&self) -> &Recipes<'a>
        ensures { listed result.now.entries.items ≡ recipes (plain_history self.now) }
    {
        &self.places.known.recipes
    }

    /// The cursor that went along the batch's run, where one of this recipe's chart is kept.
    pub fn cursor(&self, batch: Name, recipe: Name) -> Option<&Cursor>
        ensures { IfSome result (λ cursor. GoesAlong (recipes (plain_history self.now)) recipe
            (chart_entries (log_by (past_of_batch batch (plain_history self.now)))) cursor.now) }
    {
        self.places.cursors.of(batch, recipe)
    }

    /// The accepted starts of all batches.
    pub fn starts(&self) -> &[&'a Entry]
        ensures { listed result.now ≡ filter is_start (plain_history self.now) }
    {
        &self.places.known.starts
    }

    /// The tags that are docked or away, each once.
    pub fn present(&self) -> &[Name]
        ensures { result.now ≡ present_tags (plain_history self.now) }
    {
        &self.places.known.present
    }
}
