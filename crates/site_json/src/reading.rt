//! Reading sites.
ghost use Rattle.std.specs.Prelude.{◌≡◌, IsTrue, codes, map};
ghost use Rattle.serde_json.specs.View.{view};
ghost use Rattle.mtp_codes.specs.Names.{is_name};
ghost use Rattle.mtp_json.specs.ReadsAs.{ReadsAs};
ghost use Rattle.mtp_json.specs.ReadResult.{under};
ghost use Rattle.site_json.specs.Form.{site_in};
ghost use Rattle.pol_site.specs.PlainSite.{plain_site};
ghost use Rattle.site_json.specs.Texts.{site_on};
ghost use Rattle.site_json.specs.Ruled.{each_ruled, known_tag, ruled_site, sound_drifts, unlike_drifts, valid_chart};
ghost use Rattle.pol_site.specs.Views.{plain_exchange, plain_module, plain_recipe, site_form};

use crate::members::{BatchJson, DeskJson, ExchangeJson, ModuleJson, RecipeJson};
use crate::rules::{
    KnownTag, OwnRule, SoundOfExchange, SoundOfModule, UnlikeOfExchange, UnlikeOfModule,
    ValidChart, ask_each,
};
use mtp_codes::{MOST_BATCHES, MOST_MODULES, MOST_RECIPES};
use mtp_json::{JsonRefusal, list_of, nothing_but, object_here, parse, under, unlike_under};
use pol_site::{
    MOST_EXCHANGES, MOST_ORDERS, Site, SiteBatch, SiteDesk, SiteExchange, SiteModule, SiteRecipe,
};
use serde_json::Value;
use std::alloc::Global;

// Checks a rule on each item of the list at a key.
#[tactic(auto, using(mtp_json::proofs::Each::gives_below))]
fn ask_under<T: OwnRule>(
    alloc: Global,
    key: &str,
    rule: &T,
    items: &[T::Item],
) -> Result<(), JsonRefusal>
    requires { IsTrue (is_name key.now) }
    ensures { ReadsAs (λ unit. unit) result (under key.now (each_ruled (T.rule rule.now) 0 (map T.plain items.now))) }
{
    under(key, ask_each(alloc, rule, items))
}

// Checks the own rules of the site that has these members.
#[tactic(auto, unfolding(crate::specs::Ruled::ruled_site))]
fn ask_all(
    alloc: Global,
    modules: &[SiteModule],
    recipes: &[SiteRecipe],
    batches: &[SiteBatch],
    exchanges: &[SiteExchange],
    desk: &[SiteDesk],
) -> Result<(), JsonRefusal>
    ensures { ReadsAs (λ _. site_form modules.now recipes.now batches.now exchanges.now desk.now) result
        (ruled_site (site_form modules.now recipes.now batches.now exchanges.now desk.now)) }
{
    unlike_under::<ModuleJson>(alloc, "modules", modules)?;
    unlike_under::<BatchJson>(alloc, "batches", batches)?;
    ask_under(alloc, "modules", &UnlikeOfModule, modules)?;
    ask_under(alloc, "exchanges", &UnlikeOfExchange, exchanges)?;
    ask_under(alloc, "modules", &SoundOfModule, modules)?;
    ask_under(alloc, "exchanges", &SoundOfExchange, exchanges)?;
    ask_under(alloc, "exchanges", &KnownTag { modules }, exchanges)?;
    ask_under(alloc, "recipes", &ValidChart, recipes)
}

#[tactic(auto, unfolding(crate::specs::Form::site_in))]
fn read_value(alloc: Global, value: &Value) -> Result<Site, JsonRefusal>
    ensures { ReadsAs plain_site result (site_in (view value.now)) }
{
    object_here(alloc, value)?;
    let modules = list_of::<ModuleJson>(alloc, value, "modules", 1, MOST_MODULES)?;
    let recipes = list_of::<RecipeJson>(alloc, value, "recipes", 0, MOST_RECIPES)?;
    let batches = list_of::<BatchJson>(alloc, value, "batches", 0, MOST_BATCHES)?;
    let exchanges = list_of::<ExchangeJson>(alloc, value, "exchanges", 0, MOST_EXCHANGES)?;
    let desk = list_of::<DeskJson>(alloc, value, "desk", 0, MOST_ORDERS)?;
    nothing_but(alloc, value, "modules recipes batches exchanges desk")?;
    ask_all(alloc, &modules, &recipes, &batches, &exchanges, &desk)?;
    Ok(Site {
        modules,
        recipes,
        batches,
        exchanges,
        desk,
    })
}

/// The site that a line says, one JSON object (RFC 8259) without its line feed; else the line's first fault in reading
/// order, with its path: of the form, of the site's own rules, or that a chart isn't valid.
#[tactic(auto, unfolding(crate::specs::Texts::site_on))]
pub fn read_site(alloc: Global, line: &[u8]) -> Result<Site, JsonRefusal>
    ensures { ReadsAs plain_site result (site_on line.now) }
{
    let value = parse(alloc, line)?;
    read_value(alloc, &value)
}
