//! What a site lists.

use chart_core::Chart;
use mtp_codes::{Command, Name};
use mtp_desc::Description;
use mtp_sim::SimPlan;
use pol_events::Bind;
use std::sync::Arc;

/// A module of a site.
#[derive(Drop)]
pub struct SiteModule {
    /// The tag under which it is plugged.
    pub tag: Name,
    /// What it can do.
    pub desc: Arc<Description>,
    /// How it is simulated.
    pub sim: SimPlan,
}

/// A recipe of a site.
#[derive(Drop)]
pub struct SiteRecipe {
    /// Its name.
    pub recipe: Name,
    /// Its chart with its roles.
    pub chart: Arc<Chart>,
}

/// A batch of a site.
#[derive(Drop)]
pub struct SiteBatch {
    /// Its name.
    pub batch: Name,
    /// The recipe that it follows.
    pub recipe: Name,
    /// The modules that it holds, each with its role: at most 64, in byte order of the roles.
    pub bind: Vec<Bind>,
    /// The modules that it watches, each with its role: at most 64, in byte order of the roles, for none of which it
    /// holds a module.
    pub watch: Vec<Bind>,
}

/// An exchange of a site: the module under a tag is exchanged for another.
#[derive(Drop)]
pub struct SiteExchange {
    /// The tag of the module that is exchanged.
    pub tag: Name,
    /// How many entries the history has at least when it begins, from 0 to 200,000.
    pub after: u32,
    /// What the other module can do.
    pub desc: Arc<Description>,
    /// How the other module is simulated.
    pub sim: SimPlan,
}

/// A command that the desk of a site sends.
#[derive(Clone, Copy)]
pub struct SiteDesk {
    /// The tag of the module.
    pub tag: Name,
    /// Its service.
    pub service: Name,
    /// The command (VDI/VDE/NAMUR 2658 part 4).
    pub command: Command,
    /// How many entries the history has at least when it is sent, from 0 to 200,000.
    pub after: u32,
}
