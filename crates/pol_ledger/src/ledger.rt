//! A plant with who asked for its events, as a chronicle.
ghost use Rattle.std.specs.Prelude.{◌≡◌, ◌+◌, ◌++◌, ◌∷◌, ◌<◌, ◌≤◌, [], length, List, ℕ, Some, None, is_some, IfErr, IfOk, IsTrue, true, OnOk, option_copied, slice_get, vec_capacity, vec_len};
ghost use Rattle.std.specs.Bool.{Decides};
ghost use Rattle.pol_core.specs.Plants.{plant_history};
ghost use Rattle.pol_events.specs.Events.{plain_event};
ghost use Rattle.pol_events.specs.Orderly.{is_orderly};
ghost use Rattle.pol_history.specs.Runs.{is_recorded};
ghost use Rattle.pol_kept.specs.Work.{IsTextIfKept};
ghost use Rattle.pol_ledger.specs.Items.{asked, header, plain_asked, plain_item, sum_of};
ghost use Rattle.pol_ledger.specs.Ledgers.{IsSameLedger, asked_so_far, ledger_state};
ghost use Rattle.pol_ledger.specs.Sums.{bytes_before};
ghost use Rattle.pol_ledger.specs.Work.{HasPlace, IsTextOf, history_of, items_of, ledger_after, ledger_answer, ledger_work};
ghost use Rattle.pol_ledger.specs.declared.items.LedgerAnswer.TheVariants.{Answered};

use crate::bodies::{body_of, item_of};
use crate::build::Build;
use crate::items::{Asked, LedgerAnswer, LedgerItem};
use crate::sums::{sum_after, sum_of_text};
use mtp_codes::{LONGEST_HISTORY, Name};
use pol_core::Plant;
use pol_events::{Answer, Rule};
use pol_kept::Chronicle;
use std::alloc::{AllocError, Global};
use std::marker::Model;

/// A plant, and who asked for each of its events. Nothing happens in it before a header began it.
#[derive(Drop)]
pub struct Ledger {
    plant: Plant,
    // Who asked for each event of the plant, in order.
    names: Vec<Option<Name>>,
    // The build that began it.
    build: Option<Build>,
    // The sum of the last record.
    sum: Option<[u8; 32]>,
}

impl Model for Ledger {
    ghost use Rattle.pol_ledger.specs.Ledgers.{PlainLedger};

    ghost Value = { PlainLedger };

    ghost use Rattle.std.specs.Coded.{codes};
    ghost use Rattle.pol_core.specs.contracts.plant.Plant as plant_type;

    ghost coded = { Prim.hlevel (codes, plant_type.the_row.coded) };

    ghost use Rattle.pol_ledger.specs.Ledgers.{IsLedger};

    ghost view = { λ ledger. record {
      plant = ledger.plant;
      names = ledger.names.items;
      build = ledger.build;
    } };

    ghost invariant = { λ ledger. IsLedger
        (record { plant = ledger.plant; names = ledger.names.items; build = ledger.build }) ledger.sum };
}

// Whether an event that is answered so is in the history.
fn is_recorded(answer: &Answer) -> bool
    ensures { result ≡ is_recorded answer.now }
{
    !matches!(answer, Answer::Refused(Rule::HistoryFull))
}

// Puts who asked at the end, where there is room.
fn append(names: &mut Vec<Option<Name>>, by: Option<Name>)
    requires { vec_len names.old < vec_capacity names.old }
    ensures { names.new.items ≡ names.old.items ++ by ∷ [] }
{
    names.push_reserved(by);
}

impl Ledger {
    /// The plant.
    pub fn plant(&self) -> &Plant
        ensures plant { result.now ≡ self.now.plant }
        ensures history { plant_history self.now.plant ≡ history_of (asked_so_far self.now) }
        ensures names { length self.now.names ≡ length self.now.plant.entries }
    {
        &self.plant
    }

    /// Who asked for the event at this place, from 0; None where nobody was named.
    pub fn asked_by(&self, place: usize) -> Option<Name>
        requires { place < length self.now.names }
        ensures { slice_get self.now.names place ≡ Some result }
    {
        self.names[place]
    }

    /// Who asked for each event, in order; None where nobody was named.
    pub fn persons(&self) -> &[Option<Name>]
        ensures { result.now ≡ self.now.names }
    {
        &self.names
    }

    /// The sum of the last record; None where there is none.
    pub fn sum(&self) -> Option<[u8; 32]>
        ensures { bytes_before result ≡ sum_of (items_of (ledger_state self.now)) }
    {
        self.sum
    }

    /// The build that began it; None before that.
    pub fn build(&self) -> Option<&Build>
        ensures { option_copied result ≡ self.now.build }
    {
        self.build.as_ref()
    }

    /// The plant, once the ledger is done with.
    pub fn into_plant(self) -> Plant
        ensures { result ≡ self.plant }
    {
        let Ledger {
            plant,
            names: _,
            build: _,
            sum: _,
        } = self;
        plant
    }

    /// Whether a header began it.
    pub fn is_begun(&self) -> bool
        ensures { result ≡ is_some (ledger_state self.now) }
    {
        self.build.is_some()
    }

    // Begins it: the header has this text.
    fn begin(&mut self, build: Build, text: &[u8])
        requires none { self.old.build ≡ None }
        requires text { IsTextOf [] (header build) text.now }
        ensures { ledger_state self.new ≡ Some (record { build = build; so_far = [] }) }
    {
        self.build = Some(build);
        self.sum = Some(sum_of_text(text));
    }

    // Has an event happen in the plant, which has this text if it is recorded.
    fn take(&mut self, one: Asked, text: &[u8]) -> Result<Answer, (Asked, AllocError)>
        requires begun { is_some self.old.build ≡ true }
        requires orderly { IsTrue (is_orderly (plain_event one.event)) }
        requires text { IsTextIfKept ledger_work (ledger_state self.old) (asked (plain_asked one)) text.now }
        ensures answer { IfOk result (λ answer.
            Answered answer ≡ ledger_answer (ledger_state self.old) (asked (plain_asked one))) }
        ensures after { OnOk result (ledger_state self.new
            ≡ ledger_after (ledger_state self.old) (asked (plain_asked one))) }
        ensures refused { IfErr result (λ back. (back.0 ≡ one) × IsSameLedger self.old self.new) }
    {
        if let Err(error) = self.names.reserve(1) {
            return Err((one, error));
        }
        let Asked { event, by } = one;
        match self.plant.apply(event) {
            Ok(answer) => {
                if !is_recorded(&answer) {
                    return Ok(answer);
                }
                append(&mut self.names, by);
                self.sum = Some(sum_of_text(text));
                Ok(answer)
            }
            Err((event, error)) => Err((Asked { event, by }, error)),
        }
    }

    // Whether the item may follow its items.
    fn has_place(&self, item: &LedgerItem) -> bool
        ensures { Decides result (HasPlace (items_of (ledger_state self.now)) (plain_item item.now)) }
    {
        match item {
            LedgerItem::Header(_build) => self.build.is_none(),
            LedgerItem::Asked(_one) => self.build.is_some(),
        }
    }
}

impl Chronicle for Ledger {
    type Item = LedgerItem;

    type Answer = LedgerAnswer;

    ghost use Rattle.std.specs.Prelude.{Option};
    ghost use Rattle.pol_ledger.specs.Items.{IsSound, PlainItem, plain_item};
    ghost use Rattle.pol_ledger.specs.Lawful.{ledgers_are_lawful};
    ghost use Rattle.pol_ledger.specs.Ledgers.{IsSameLedger, ledger_state};
    ghost use Rattle.pol_ledger.specs.Same.{same_ledger, unmoved_ledger};
    ghost use Rattle.pol_ledger.specs.Work.{BegunLedger, ledger_work};

    ghost State = { Option BegunLedger };

    ghost state = { ledger_state };

    ghost Plain = { PlainItem };

    ghost plain = { plain_item };

    ghost work = { ledger_work };

    ghost IsSame = { IsSameLedger };

    ghost IsSound = { IsSound };

    ghost lawful = { ledgers_are_lawful };

    ghost same = { same_ledger };

    ghost unmoved = { unmoved_ledger };

    fn new(alloc: Global) -> Ledger {
        Ledger {
            plant: Plant::new(alloc),
            names: Vec::new(alloc),
            build: None,
            sum: None,
        }
    }

    fn is_full(&self) -> bool {
        self.build.is_some() && self.names.len() >= LONGEST_HISTORY
    }

    fn text_of(&self, alloc: Global, item: &LedgerItem) -> Result<Vec<u8>, AllocError> {
        let body = body_of(alloc, item)?;
        let sum = sum_after(self.sum, &body);
        let mut text = sum.to_vec(alloc)?;
        text.extend_from_slice(&body)?;
        Ok(text)
    }

    fn item_of(
        &self,
        alloc: Global,
        text: &[u8],
        room: &mut Vec<u8>,
    ) -> Result<Option<LedgerItem>, AllocError> {
        let Some((sum, body)) = text.split_first_chunk::<32>() else {
            return Ok(None);
        };
        let sealed = sum_after(self.sum, body);
        if sealed.as_slice() != sum.as_slice() {
            return Ok(None);
        }
        let Some(item) = item_of(alloc, body, room)? else {
            return Ok(None);
        };
        if self.has_place(&item) {
            Ok(Some(item))
        } else {
            Ok(None)
        }
    }

    fn apply(
        &mut self,
        item: LedgerItem,
        text: &[u8],
    ) -> Result<LedgerAnswer, (LedgerItem, AllocError)> {
        match item {
            LedgerItem::Header(build) => {
                if self.build.is_some() {
                    return Ok(LedgerAnswer::Misplaced);
                }
                self.begin(build, text);
                Ok(LedgerAnswer::Begun)
            }
            LedgerItem::Asked(one) => {
                if self.build.is_none() {
                    return Ok(LedgerAnswer::Misplaced);
                }
                match self.take(one, text) {
                    Ok(answer) => Ok(LedgerAnswer::Answered(answer)),
                    Err((one, error)) => Err((LedgerItem::Asked(one), error)),
                }
            }
        }
    }

    fn is_kept(answer: &LedgerAnswer) -> bool {
        match answer {
            LedgerAnswer::Begun => true,
            LedgerAnswer::Misplaced => false,
            LedgerAnswer::Answered(answer) => is_recorded(answer),
        }
    }
}
