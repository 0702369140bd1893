//! Modules that could be bound, and how a chart's roles can be bound to them.

use mtp_codes::Name;
use mtp_desc::Description;
use pol_events::Bind;
use std::sync::Arc;

/// A module that could be bound.
#[derive(Drop)]
pub struct Candidate {
    /// The tag under which it is docked.
    pub tag: Name,
    /// What it says of itself.
    pub description: Arc<Description>,
    /// The names of its services that are idle.
    pub idle: Vec<Name>,
}

/// How the roles of a chart can be bound.
#[derive(Drop)]
pub enum Found {
    /// The least binding: a candidate for each role, in the order of the roles.
    Binding(Vec<Bind>),
    /// There is no binding: these roles fit these candidates alone, which are fewer.
    Short {
        /// Roles, in the order of the recipe.
        roles: Vec<Name>,
        /// The tags of all candidates that fit one of these roles, in byte order.
        tags: Vec<Name>,
    },
}
