//! A module of a plant.
ghost use Rattle.mtp_desc.specs.PlainDescription.{plain_description};
ghost use Rattle.pol_slots.specs.Berths.{reported_in};
ghost use Rattle.pol_slots.specs.Reported.{KnowsServices, KnowsVariables};

use super::berth::Berth;
use mtp_codes::Name;
use mtp_desc::Description;
use std::alloc::Global;
use std::sync::Arc;

/// A module under its tag: its description, how often it began an exchange, and whether it is docked or away, with what
/// was reported last of each of its services and variables since docking.
#[derive(Drop)]
pub struct Slot {
    pub(crate) alloc: Global,
    pub(crate) tag: Name,
    pub(crate) description: Arc<Description>,
    pub(crate) begins: u32,
    pub(crate) berth: Berth,
    ghost services: { KnowsServices (plain_description description.value) (reported_in berth) },
    ghost variables: { KnowsVariables (plain_description description.value) (reported_in berth) },
}
