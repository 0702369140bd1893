//! The module that an errand of the exchanger is about.
ghost use Rattle.std.specs.Prelude.{◌≡◌, option_and_then, position, slice_get};
ghost use Rattle.std.specs.Str.{bytes_eq};
ghost use Rattle.pol_actors.specs.Moved.{errand_tag, place_of_tag, put_at, unit_after, units_after};
ghost use Rattle.pol_site.specs.PlainSite.{plain_site};

use crate::exchanger::Errand;
use crate::unit::Unit;
use mtp_codes::Name;
use pol_events::Answer;
use pol_site::{Site, SiteModule};

// The place of the module with this tag.
fn place_of(modules: &[SiteModule], tag: Name) -> Option<usize>
    ensures { result ≡ position (λ unit. bytes_eq unit.tag tag) modules.now }
{
    modules.iter().position(|unit| unit.tag == tag)
}

// The place of the module that the errand is about.
fn place_of_errand(site: &Site, errand: &Errand) -> Option<usize>
    ensures { result ≡ option_and_then (place_of_tag (plain_site site.now)) (errand_tag errand.now) }
{
    let tag = errand.tag()?;
    place_of(&site.modules, tag)
}

// Changes the module at a place, if there is one.
fn change_at(units: &mut Vec<Unit>, place: usize, errand: &Errand, answer: &Answer)
    ensures { units.new.items ≡ put_at units.old.items place (unit_after errand.now answer.now)
        (slice_get units.old.items place) }
{
    if place < units.len() {
        units[place].after(errand, answer);
    }
}

/// Changes the module that an errand of the exchanger is about, after it was answered so.
pub fn move_units(site: &Site, units: &mut Vec<Unit>, errand: &Errand, answer: &Answer)
    ensures { units.new.items ≡ units_after (plain_site site.now) units.old.items errand.now answer.now }
{
    if let Some(place) = place_of_errand(site, errand) {
        change_at(units, place, errand, answer);
    }
}
