//! Reads sites from lines of JSON.
//!
//! `read_site` gives the site that a line says, or the first fault in reading order (`specs/Form.antt`): of the form,
//! of the site's own rules (`specs/Ruled.antt`), or that a chart isn't valid. `pol_site` defines what a site is.
//!
//! Tried in `event_examples`.
#![tactic(auto)]

mod members;
mod plans;
mod reading;
mod rules;

pub use reading::read_site;
