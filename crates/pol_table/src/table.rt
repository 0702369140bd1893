//! The table of docked parts.
ghost use Rattle.std.specs.Prelude.{◌≡◌, ℕ, ◌+◌, List, [], length, OnOk, OnErr, IfOk, IfErr, IsSome, true, slice_get, if◌then◌else◌, unwrap_or, option_copied};
ghost use Rattle.std.specs.Borrow.{LendsIf, sem};
ghost use Rattle.std.specs.Map.{keys_of};
ghost use Rattle.std.specs.Option.{option_copied_mut, option_map};
ghost use Rattle.std.specs.Str.{bytes_eq};
ghost use Rattle.mtp_codes.specs.Names.{is_among};
ghost use Rattle.pol_table.specs.Rows.{look, part_of, holder_of, watchers_of, with_part, held_by, watched_among, freed_from};
ghost use Rattle.pol_table.specs.Answers.{dock_fault, leaving, hold_answer};
ghost use Rattle.pol_table.specs.ByteOrder.{in_byte_order};
ghost use Rattle.pol_table.specs.Watches.{watchers_in};

use super::faults::{DockFault, HoldFault, LeaveFault};
use super::holdings::Holdings;
use super::watch::Watch;
use super::watching::{add_each, end_each, watcher_at};
use mtp_codes::Name;
use std::alloc::{AllocError, Global};
use std::marker::Model;

/// The docked parts of a plant, each under its tag, with the batch that holds it and the batches that watch it.
#[derive(Drop)]
pub struct Table<T> {
    holdings: Holdings<T>,
    watches: Vec<Watch>,
}

impl<T> Model for Table<T> {
    ghost use Rattle.pol_table.specs.Rows.{Rows, rows_code};
    ghost use Rattle.pol_table.specs.Watches.{seen_rows, AreThere};

    ghost Value = { Rows T };

    ghost coded = { rows_code T.code };

    ghost view = { λ table. seen_rows table.watches.items table.holdings };

    ghost invariant = { λ table. AreThere table.watches.items table.holdings };
}

impl<T: Drop> Table<T> {
    ghost use Rattle.pol_table.specs.contracts.table.Table.{the_row};

    /// An empty table.
    pub fn new(alloc: Global) -> Table<T>
        ensures { result ≡ [] }
    {
        Table {
            holdings: Holdings::new(alloc),
            watches: Vec::new(alloc),
        }
    }

    /// How many parts are docked: at most 64.
    pub fn len(&self) -> u32
        ensures { result ≡ length self.now }
    {
        self.holdings.len()
    }

    /// The part that is docked under the tag; None exactly where the tag is not docked.
    pub fn get(&self, tag: Name) -> Option<&T>
        ensures { option_copied result ≡ part_of tag self.now }
    {
        self.holdings.get(tag)
    }

    /// The part that is docked under the tag, to be changed in its place; None exactly where the tag is not docked.
    pub fn get_mut(&mut self, tag: Name) -> Option<&mut T>
        ensures* writes_back { sem 𝓛
            (LendsIf (the_row T.row) T.row self.entry result (with_part tag self.old) self.old) }
        ensures value { option_copied_mut result ≡ part_of tag self.old }
    {
        self.holdings.get_mut(tag)
    }

    /// The batch that holds the tag; None exactly where the tag is not docked or not held.
    pub fn holder(&self, tag: Name) -> Option<Name>
        ensures { result ≡ holder_of tag self.now }
    {
        self.holdings.holder(tag)
    }

    /// The docked tag at this place, from 0, in byte order; None from the number of parts on. Takes no memory; compares
    /// each tag with each.
    pub fn tag_at(&self, place: u32) -> Option<Name>
        ensures { result ≡ slice_get (in_byte_order (keys_of self.now)) place }
    {
        self.holdings.tag_at(place)
    }

    /// The docked tags in byte order.
    ///
    /// # Errors
    ///
    /// AllocError where there is no memory for them.
    pub fn tags(&self, alloc: Global) -> Result<Vec<Name>, AllocError>
        ensures { IfOk result (λ tags. tags.items ≡ in_byte_order (keys_of self.now)) }
    {
        self.holdings.tags(alloc)
    }

    /// The batch that watches the tag at this place, from 0, in the order in which they began; None from their number
    /// on.
    pub fn watcher(&self, tag: Name, place: u32) -> Option<Name>
        ensures { result ≡ slice_get (watchers_of tag self.now) place }
    {
        watcher_at(&self.watches, tag, place)
    }

    /// Who watches what, in the order in which they began: the watches of a tag are those of its watchers.
    pub fn watches(&self) -> &[Watch]
        ensures { (tag : List ℕ) → watchers_in tag result.now ≡ watchers_of tag self.now }
    {
        &self.watches
    }

    /// Docks a part under a tag that no batch holds or watches yet.
    ///
    /// `TagTaken` where the tag is docked, `PlantFull` where it is new and 64 are docked, `Memory` where there is no
    /// memory; each hands the part back.
    pub fn dock(&mut self, tag: Name, part: T) -> Result<(), (T, DockFault)>
        ensures ok { OnOk result (dock_fault tag self.old ≡ None) }
        ensures docked { OnOk result ((other : List ℕ) → look other self.new
            ≡ (if bytes_eq tag other then Some (record { part = part; holder = None; watchers = [] })
            else look other self.old)) }
        ensures count { OnOk result (length self.new ≡ length self.old + 1) }
        ensures err { IfErr result (λ refused. refused.1 ≡ unwrap_or (dock_fault tag self.old) DockFault.Memory) }
        ensures handed_back { IfErr result (λ refused. refused.0 ≡ part) }
        ensures unchanged { OnErr result (self.new ≡ self.old) }
    {
        self.holdings.dock(tag, part)
    }

    /// Takes the part out that is docked under the tag.
    ///
    /// `NoModule` exactly where the tag is not docked, `Held` exactly where a batch holds it, `Watched` exactly where
    /// no batch holds it and some batch watches it, the first of them.
    pub fn leave(&mut self, tag: Name) -> Result<T, LeaveFault>
        ensures answer { result ≡ leaving tag self.old }
        ensures left { OnOk result ((other : List ℕ) → look other self.new
            ≡ (if bytes_eq tag other then None else look other self.old)) }
        ensures count { OnOk result (length self.new + 1 ≡ length self.old) }
        ensures unchanged { OnErr result (self.new ≡ self.old) }
    {
        if let Some(batch) = self.holdings.holder(tag) {
            return Err(LeaveFault::Held(batch));
        }
        if let Some(batch) = watcher_at(&self.watches, tag, 0) {
            return Err(LeaveFault::Watched(batch));
        }
        self.holdings.leave(tag)
    }

    /// Lets the batch hold all of these tags, or none of them.
    ///
    /// `NoModule` names the first tag that is not docked. Where all are docked, `Busy` names the first that is held
    /// already, with its holder.
    pub fn hold_all(&mut self, tags: &[Name], batch: Name) -> Result<(), HoldFault>
        ensures answer { result ≡ hold_answer tags.now self.old }
        ensures held { OnOk result ((tag : List ℕ) → look tag self.new
            ≡ option_map (λ row. if is_among tags.now tag then held_by batch row else row) (look tag self.old)) }
        ensures count { length self.new ≡ length self.old }
        ensures unchanged { OnErr result (self.new ≡ self.old) }
    {
        self.holdings.hold_all(tags, batch)
    }

    /// Lets the batch watch all of these tags, which are docked, behind all others; a tag that is named twice is
    /// watched twice. Where there is no memory it watches none.
    pub fn watch_all(&mut self, tags: &[Name], batch: Name) -> Result<(), AllocError>
        requires { (tag : List ℕ) → is_among tags.now tag ≡ true → IsSome (look tag self.old) }
        ensures watched { OnOk result ((tag : List ℕ) → look tag self.new
            ≡ option_map (watched_among tags.now batch tag) (look tag self.old)) }
        ensures count { length self.new ≡ length self.old }
        ensures unchanged { OnErr result (self.new ≡ self.old) }
    {
        add_each(&mut self.watches, tags, batch)
    }

    /// Frees exactly the tags that the batch holds, and ends exactly its watches.
    pub fn release(&mut self, batch: Name)
        ensures freed { (tag : List ℕ) → look tag self.new ≡ option_map (freed_from batch) (look tag self.old) }
        ensures count { length self.new ≡ length self.old }
    {
        self.holdings.release(batch);
        end_each(&mut self.watches, batch);
    }
}
