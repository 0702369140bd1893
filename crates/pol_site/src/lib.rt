//! Sites of plants that run by themselves, and what a running plant promises. A site has modules with their
//! simulations, recipes, batches, exchanges and the commands of its desk. The crate defines what it means that a
//! history follows a site, that every change has its command and that a site is settled, and what its status board
//! shows.
//!
//! Every `Site` keeps the rules of `specs/Sound.antt`; `site_json` reads one from a line. What a running plant promises
//! is defined over plain data; the crate knows no text form, and nothing of threads, of locks or of how an actor finds
//! what to do.
//!
//! Tried in `live_examples`.
#![tactic(auto)]

mod limits;
mod parts;
mod site;

pub use limits::{MOST_DRIFTS, MOST_EXCHANGES, MOST_ORDERS, MOST_TICKS};
pub use parts::{SiteBatch, SiteDesk, SiteExchange, SiteModule, SiteRecipe};
pub use site::Site;
