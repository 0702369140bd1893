//! A site.
ghost use Rattle.pol_site.specs.Sound.{IsSite};
ghost use Rattle.pol_site.specs.Views.{site_form};

use crate::parts::{SiteBatch, SiteDesk, SiteExchange, SiteModule, SiteRecipe};

/// A site: what a plant that runs by itself has and is to do. It keeps the rules of a site text.
#[derive(Drop)]
pub struct Site {
    /// The modules, in the order in which they are plugged: 1 to 64, no two of one tag.
    pub modules: Vec<SiteModule>,
    /// The recipes, in the order in which they are made known: at most 64.
    pub recipes: Vec<SiteRecipe>,
    /// The batches: at most 128, no two of one name.
    pub batches: Vec<SiteBatch>,
    /// The exchanges, in their order: at most 256, each of a tag that a module has.
    pub exchanges: Vec<SiteExchange>,
    /// The commands of the desk, in their order: at most 256.
    pub desk: Vec<SiteDesk>,
    pub ghost kept: { IsSite (site_form modules.items recipes.items batches.items exchanges.items desk.items) },
}
