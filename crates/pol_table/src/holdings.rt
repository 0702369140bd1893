//! Which parts are docked, and which batch holds each.
ghost use Rattle.std.specs.Prelude.{◌≡◌, ℕ, ◌+◌, List, [], length, OnOk, OnErr, IfOk, IfErr, slice_get, if◌then◌else◌, unwrap_or, option_copied};
ghost use Rattle.std.specs.Borrow.{LendsIf, sem};
ghost use Rattle.std.specs.Map.{keys_of};
ghost use Rattle.std.specs.Option.{option_copied_mut, option_map};
ghost use Rattle.std.specs.Str.{bytes_eq};
ghost use Rattle.mtp_codes.specs.Names.{is_among};
ghost use Rattle.pol_table.specs.HeldRows.{look, part_of, holder_of, with_part, held_by, freed_from};
ghost use Rattle.pol_table.specs.HeldAnswers.{dock_fault, leaving, hold_answer};
ghost use Rattle.pol_table.specs.ByteOrder.{in_byte_order};

use super::faults::{DockFault, HoldFault, LeaveFault};
use super::holding::{first_busy, first_missing, free_each, free_seat, hold_each, holder_of_seat};
use super::order::{tag_at, tags};
use super::seat::Seat;
use indexmap::IndexMap;
use mtp_codes::{MOST_MODULES, Name};
use slab::Slab;
use std::alloc::{AllocError, Global};
use std::marker::Model;

/// The docked parts of a plant, each under its tag, and the batch that holds it.
#[derive(Drop)]
pub(crate) struct Holdings<T> {
    parts: Slab<T>,
    seats: IndexMap<Name, Seat>,
}

impl<T> Model for Holdings<T> {
    ghost use Rattle.pol_table.specs.HeldRows.{HeldRows, rows_code};
    ghost use Rattle.pol_table.specs.Places.{rows_of, IsSound};

    ghost Value = { HeldRows T };

    ghost coded = { rows_code T.code };

    ghost view = { λ holdings. rows_of holdings.seats.entries holdings.parts.slots };

    ghost invariant = { λ holdings. IsSound holdings.seats.entries holdings.parts.slots };
}

impl<T: Drop> Holdings<T> {
    ghost use Rattle.pol_table.specs.contracts.holdings.Holdings.{the_row};

    /// An empty table.
    pub(crate) fn new(alloc: Global) -> Holdings<T>
        ensures { result ≡ [] }
    {
        Holdings {
            parts: Slab::new(alloc),
            seats: IndexMap::new(alloc),
        }
    }

    /// How many parts are docked: at most 64.
    pub(crate) fn len(&self) -> u32
        ensures { result ≡ length self.now }
    {
        self.seats.len() as u32
    }

    /// The part that is docked under the tag; None exactly where the tag is not docked.
    pub(crate) fn get(&self, tag: Name) -> Option<&T>
        ensures { option_copied result ≡ part_of tag self.now }
    {
        let seat = self.seats.get(&tag)?;
        self.parts.get(seat.place)
    }

    /// The part that is docked under the tag, to be changed in its place; None exactly where the tag is not docked.
    pub(crate) fn get_mut(&mut self, tag: Name) -> Option<&mut T>
        ensures* writes_back { sem 𝓛
            (LendsIf (the_row T.row) T.row self.entry result (with_part tag self.old) self.old) }
        ensures value { option_copied_mut result ≡ part_of tag self.old }
    {
        let place = self.seats.get(&tag)?.place;
        self.parts.get_mut(place)
    }

    /// The batch that holds the tag; None exactly where the tag is not docked or not held.
    pub(crate) fn holder(&self, tag: Name) -> Option<Name>
        ensures { result ≡ holder_of tag self.now }
    {
        holder_of_seat(&self.seats, tag)
    }

    /// The docked tag at this place, from 0, in byte order; None from the number of parts on.
    pub(crate) fn tag_at(&self, place: u32) -> Option<Name>
        ensures { result ≡ slice_get (in_byte_order (keys_of self.now)) place }
    {
        tag_at(&self.seats, place as usize)
    }

    /// The docked tags in byte order.
    pub(crate) fn tags(&self, alloc: Global) -> Result<Vec<Name>, AllocError>
        ensures { IfOk result (λ tags. tags.items ≡ in_byte_order (keys_of self.now)) }
    {
        tags(alloc, &self.seats)
    }

    /// Docks a part under a tag that no batch holds yet.
    ///
    /// `TagTaken` where the tag is docked, `PlantFull` where it is new and 64 are docked, `Memory` where there is no
    /// memory; each hands the part back.
    pub(crate) fn dock(&mut self, tag: Name, part: T) -> Result<(), (T, DockFault)>
        ensures ok { OnOk result (dock_fault tag self.old ≡ None) }
        ensures docked { OnOk result ((other : List ℕ) → look other self.new
            ≡ (if bytes_eq tag other then Some (record { part = part; holder = None }) else look other self.old)) }
        ensures count { OnOk result (length self.new ≡ length self.old + 1) }
        ensures err { IfErr result (λ refused. refused.1 ≡ unwrap_or (dock_fault tag self.old) DockFault.Memory) }
        ensures handed_back { IfErr result (λ refused. refused.0 ≡ part) }
        ensures unchanged { OnErr result (self.new ≡ self.old) }
    {
        if self.seats.contains_key(&tag) {
            return Err((part, DockFault::TagTaken));
        }
        if self.seats.len() >= MOST_MODULES {
            return Err((part, DockFault::PlantFull));
        }
        if self.seats.reserve(1).is_err() {
            return Err((part, DockFault::Memory));
        }
        match self.parts.insert(part) {
            Ok(place) => {
                let seat = Seat {
                    place,
                    holder: None,
                };
                self.seats.insert(tag, seat).unwrap();
                Ok(())
            }
            Err(failed) => Err((failed.value, DockFault::Memory)),
        }
    }

    /// Takes the part out that is docked under the tag.
    ///
    /// `NoModule` exactly where the tag is not docked, `Held` exactly where a batch holds it.
    pub(crate) fn leave(&mut self, tag: Name) -> Result<T, LeaveFault>
        ensures answer { result ≡ leaving tag self.old }
        ensures left { OnOk result ((other : List ℕ) → look other self.new
            ≡ (if bytes_eq tag other then None else look other self.old)) }
        ensures count { OnOk result (length self.new + 1 ≡ length self.old) }
        ensures unchanged { OnErr result (self.new ≡ self.old) }
    {
        let seat = free_seat(&self.seats, tag)?;
        let _seat = self.seats.swap_remove(&tag);
        match self.parts.try_remove(seat.place) {
            Some(part) => Ok(part),
            None => unreachable!(),
        }
    }

    /// Lets the batch hold all of these tags, or none of them.
    ///
    /// `NoModule` names the first tag that is not docked. Where all are docked, `Busy` names the first that is held
    /// already, with its holder.
    pub(crate) fn hold_all(&mut self, tags: &[Name], batch: Name) -> Result<(), HoldFault>
        ensures answer { result ≡ hold_answer tags.now self.old }
        ensures held { OnOk result ((tag : List ℕ) → look tag self.new
            ≡ option_map (λ row. if is_among tags.now tag then held_by batch row else row) (look tag self.old)) }
        ensures count { length self.new ≡ length self.old }
        ensures unchanged { OnErr result (self.new ≡ self.old) }
    {
        if let Some(fault) = first_missing(&self.seats, tags) {
            return Err(fault);
        }
        if let Some(fault) = first_busy(&self.seats, tags) {
            return Err(fault);
        }
        hold_each(&mut self.seats, tags, batch);
        Ok(())
    }

    /// Frees exactly the tags that the batch holds.
    pub(crate) fn release(&mut self, batch: Name)
        ensures freed { (tag : List ℕ) → look tag self.new ≡ option_map (freed_from batch) (look tag self.old) }
        ensures count { length self.new ≡ length self.old }
    {
        free_each(&mut self.seats, batch);
    }
}
