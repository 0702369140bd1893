//! The exchanger: it makes the recipes known, plugs the modules, and works through the exchanges, all in their order.
ghost use Rattle.std.specs.Prelude.{◌≡◌, ◌<◌, ◌^◌, IfOk, Some, option_map, slice_get};
ghost use Rattle.pol_events.specs.Events.{plain_event, exchange_begin};
ghost use Rattle.pol_history.specs.Answers.{answer_of};
ghost use Rattle.pol_core.specs.Calls.{refusal};
ghost use Rattle.pol_core.specs.Plants.{plant_history};
ghost use Rattle.pol_site.specs.Settled.{is_busy_rule};
ghost use Rattle.pol_site.specs.PlainSite.{plain_site};
ghost use Rattle.pol_site.specs.Following.{openings};
ghost use Rattle.pol_site.specs.Views.{plain_exchange, plain_module, plain_recipe};
ghost use Rattle.pol_actors.specs.Moved.{errand_tag};
ghost use Rattle.pol_actors.specs.Exchanges.{begin_errand, begun_standing, ended_standing, end_event, errand_of};
ghost use Rattle.pol_actors.specs.Exchanges.{event_of, exchanger_after, first_exchanger, is_refusal_busy, know_event};
ghost use Rattle.pol_actors.specs.Exchanges.{plug_event};

use crate::items::item_at;
use mtp_codes::Name;
use pol_core::Plant;
use pol_events::{Answer, Event, Rule};
use pol_site::{Site, SiteExchange, SiteModule, SiteRecipe};
use std::alloc::AllocError;

/// The state of the exchanges.
#[derive(Clone, Copy, Debug, PartialEq, Eq)]
pub enum Standing {
    /// None is open.
    Closed,
    /// One was begun.
    Begun { tag: Name, ticket: u32 },
    /// The end of one was held back: it is to be cancelled.
    SentBack { tag: Name, ticket: u32 },
}

/// The state of the exchanger.
#[derive(Clone, Copy, Debug, PartialEq, Eq)]
pub struct Exchanger {
    /// How many recipes and modules had their events.
    pub opened: usize,
    /// How many exchanges were begun.
    pub begun: usize,
    /// Whether one is open.
    pub standing: Standing,
}

/// What the exchanger does next.
#[derive(Clone, Copy, Debug, PartialEq, Eq)]
pub enum Errand {
    /// It makes a recipe known or plugs a module: that at this place among the recipes and then the modules.
    Open {
        place: usize,
    },
    /// It begins the exchange of this tag.
    Begin {
        tag: Name,
    },
    /// It ends the exchange at this place of the site.
    End {
        tag: Name,
        ticket: u32,
        place: usize,
    },
    /// It cancels the exchange.
    Cancel {
        tag: Name,
        ticket: u32,
    },
}

// Whether this is a rule for which an exchange waits.
fn is_busy_rule(rule: &Rule) -> bool
    ensures { result ≡ is_busy_rule rule.now }
{
    matches!(rule, Rule::ActiveStep { .. } | Rule::NotAtRest { .. })
}

// Whether a begin that would be answered so waits.
fn is_refusal_busy(would: &Result<(), Rule>) -> bool
    ensures { result ≡ is_refusal_busy would.now }
{
    match would {
        Ok(()) => false,
        Err(rule) => is_busy_rule(rule),
    }
}

// Whether the exchange of the tag waits for its module.
fn is_busy(tag: Name, plant: &Plant) -> bool
    ensures { result ≡ is_refusal_busy (refusal (answer_of (plant_history plant.now) (exchange_begin 0 tag))) }
{
    is_refusal_busy(&plant.would_begin(tag))
}

// Begins the exchange, unless it waits.
fn begin_errand(exchange: &SiteExchange, plant: &Plant, length: u32) -> Option<Errand>
    ensures { result ≡ begin_errand (plant_history plant.now) length (Some (plain_exchange exchange.now)) }
{
    if length < exchange.after || is_busy(exchange.tag, plant) {
        return None;
    }
    Some(Errand::Begin { tag: exchange.tag })
}

impl Exchanger {
    /// The exchanger at first.
    pub fn first() -> Exchanger
        ensures { result ≡ first_exchanger }
    {
        Exchanger {
            opened: 0,
            begun: 0,
            standing: Standing::Closed,
        }
    }

    /// What it does next. None where it waits or has nothing more to do. The history has this length.
    pub fn errand(&self, site: &Site, plant: &Plant, length: u32) -> Option<Errand>
        ensures { result ≡ errand_of (plain_site site.now) (plant_history plant.now) length self.now }
    {
        if self.opened < site.recipes.len() + site.modules.len() {
            return Some(Errand::Open { place: self.opened });
        }
        match self.standing {
            Standing::Closed => begin_errand(item_at(&site.exchanges, self.begun)?, plant, length),
            Standing::Begun { tag, ticket } => Some(Errand::End {
                tag,
                ticket,
                place: self.begun.saturating_sub(1),
            }),
            Standing::SentBack { tag, ticket } => Some(Errand::Cancel { tag, ticket }),
        }
    }

    /// The exchanger after the event of an errand was answered so.
    pub fn after(&self, errand: &Errand, answer: &Answer) -> Exchanger
        requires few { (self.now.opened < 2 ^ 32) × (self.now.begun < 2 ^ 32) }
        ensures { result ≡ exchanger_after self.now errand.now answer.now }
    {
        match *errand {
            Errand::Open { .. } => Exchanger {
                opened: self.opened + 1,
                ..*self
            },
            Errand::Begin { tag } => Exchanger {
                begun: self.begun + 1,
                standing: begun_standing(tag, answer),
                ..*self
            },
            Errand::End { tag, ticket, .. } => Exchanger {
                standing: ended_standing(tag, ticket, answer),
                ..*self
            },
            Errand::Cancel { .. } => Exchanger {
                standing: Standing::Closed,
                ..*self
            },
        }
    }
}

// The state of the exchanges after a begin that was answered so.
fn begun_standing(tag: Name, answer: &Answer) -> Standing
    ensures { result ≡ begun_standing tag answer.now }
{
    match answer {
        Answer::Ticket(ticket) => Standing::Begun {
            tag,
            ticket: *ticket,
        },
        _ => Standing::Closed,
    }
}

// The state of the exchanges after an end that was answered so.
fn ended_standing(tag: Name, ticket: u32, answer: &Answer) -> Standing
    ensures { result ≡ ended_standing tag ticket answer.now }
{
    match answer {
        Answer::Refused(Rule::HeldBack { .. }) => Standing::SentBack { tag, ticket },
        _ => Standing::Closed,
    }
}

// The event that makes a recipe known.
fn recipe_event(recipe: &SiteRecipe) -> Result<Event, AllocError>
    ensures { IfOk result (λ event. plain_event event ≡ know_event (plain_recipe recipe.now)) }
{
    Ok(Event::Recipe {
        at: 0,
        recipe: recipe.recipe,
        chart: recipe.chart.clone()?,
    })
}

// The event that plugs a module.
fn plug_event(unit: &SiteModule) -> Result<Event, AllocError>
    ensures { IfOk result (λ event. plain_event event ≡ plug_event (plain_module unit.now)) }
{
    Ok(Event::Plug {
        at: 0,
        tag: unit.tag,
        desc: unit.desc.clone()?,
    })
}

// The event that ends an exchange.
fn end_event(tag: Name, ticket: u32, exchange: &SiteExchange) -> Result<Event, AllocError>
    ensures { IfOk result (λ event. plain_event event ≡ end_event tag ticket (plain_exchange exchange.now)) }
{
    Ok(Event::ExchangeEnd {
        at: 0,
        tag,
        ticket,
        desc: exchange.desc.clone()?,
    })
}

// The event that plugs the module at this place.
fn plugging_event(site: &Site, place: usize) -> Result<Option<Event>, AllocError>
    ensures { IfOk result (λ event. option_map plain_event event
        ≡ option_map plug_event (slice_get (plain_site site.now).modules place)) }
{
    match item_at(&site.modules, place) {
        Some(unit) => Ok(Some(plug_event(unit)?)),
        None => Ok(None),
    }
}

// The event that makes the recipe at this place known, or plugs the module at this place after the recipes.
fn opening_event(site: &Site, place: usize) -> Result<Option<Event>, AllocError>
    ensures { IfOk result (λ event. option_map plain_event event ≡ slice_get (openings (plain_site site.now)) place) }
{
    match item_at(&site.recipes, place) {
        Some(recipe) => Ok(Some(recipe_event(recipe)?)),
        None => plugging_event(site, place - site.recipes.len()),
    }
}

// The event that ends the exchange at this place.
fn ending_event(
    site: &Site,
    tag: Name,
    ticket: u32,
    place: usize,
) -> Result<Option<Event>, AllocError>
    ensures { IfOk result (λ event. option_map plain_event event
        ≡ option_map (end_event tag ticket) (slice_get (plain_site site.now).exchanges place)) }
{
    match item_at(&site.exchanges, place) {
        Some(exchange) => Ok(Some(end_event(tag, ticket, exchange)?)),
        None => Ok(None),
    }
}

impl Errand {
    /// The tag of the module whose exchange it is about.
    pub fn tag(&self) -> Option<Name>
        ensures { result ≡ errand_tag self.now }
    {
        match *self {
            Errand::Open { .. } => None,
            Errand::Begin { tag } | Errand::End { tag, .. } | Errand::Cancel { tag, .. } => Some(
                tag,
            ),
        }
    }

    /// The event of the errand, with the stamp 0; None where the site has nothing at its place.
    ///
    /// # Errors
    ///
    /// Where a chart or a description can't be shared once more.
    pub fn event(&self, site: &Site) -> Result<Option<Event>, AllocError>
        ensures { IfOk result (λ event. option_map plain_event event ≡ event_of (plain_site site.now) self.now) }
    {
        match *self {
            Errand::Open { place } => opening_event(site, place),
            Errand::Begin { tag } => Ok(Some(Event::ExchangeBegin { at: 0, tag })),
            Errand::End { tag, ticket, place } => ending_event(site, tag, ticket, place),
            Errand::Cancel { tag, ticket } => Ok(Some(Event::ExchangeCancel {
                at: 0,
                tag,
                ticket,
            })),
        }
    }
}
