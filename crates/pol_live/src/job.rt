//! One run of a site.
ghost use Rattle.std.specs.Prelude.{[]};
ghost use Rattle.pol_site.specs.Sites.{PlainSite};

use std::marker::Brand;
use std::sync::ledger::Ledger;

/// One run: its ledger, and its site as contracts see it.
pub trait Job: Ledger {
    /// The site of the run.
    ghost site: { PlainSite };
}

impl Job for Brand {
    ghost site = { record { modules = []; recipes = []; batches = []; exchanges = []; desk = [] } };
}
