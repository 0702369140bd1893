//! The members of a site's lists in JSON.
ghost use Rattle.std.specs.Prelude.{◌≡◌};
ghost use Rattle.serde_json.specs.View.{view};
ghost use Rattle.mtp_json.specs.ReadsAs.{ReadsAs};
ghost use Rattle.pol_site.specs.Rules.{same_batch, same_tag};
ghost use Rattle.pol_site.specs.Sites.{PlainSiteBatch, PlainSiteDesk, PlainSiteExchange, PlainSiteModule};
ghost use Rattle.pol_site.specs.Sites.{PlainSiteRecipe};
ghost use Rattle.pol_site.specs.Views.{plain_batch, plain_desk, plain_exchange, plain_module, plain_recipe};
ghost use Rattle.site_json.specs.Form.{batch_of, desk_of, exchange_of, module_of, recipe_of};

use crate::plans::PlanJson;
use chart_json::{make_chart, node_at, roles_at};
use desc_json::DescriptionJson;
use event_json::{BindsJson, binds_or_none};
use mtp_codes::LONGEST_HISTORY;
use mtp_json::{
    Alike, FaultKind, FromJson, JsonRefusal, command_at, form_at, name_at, nothing_but,
    object_here, refused_under, u32_at,
};
use pol_events::shares_a_role;
use pol_site::{SiteBatch, SiteDesk, SiteExchange, SiteModule, SiteRecipe};
use serde_json::Value;
use std::alloc::Global;
use std::sync::Arc;

#[tactic(auto, unfolding(crate::specs::Form::module_of))]
fn read_module(alloc: Global, value: &Value) -> Result<SiteModule, JsonRefusal>
    ensures { ReadsAs plain_module result (module_of (view value.now)) }
{
    object_here(alloc, value)?;
    let tag = name_at(alloc, value, "tag")?;
    let desc = form_at::<DescriptionJson>(alloc, value, "desc")?;
    let sim = form_at::<PlanJson>(alloc, value, "sim")?;
    nothing_but(alloc, value, "tag desc sim")?;
    let desc = Arc::new(alloc, desc)?;
    Ok(SiteModule { tag, desc, sim })
}

/// The form of a module.
pub struct ModuleJson;

impl FromJson for ModuleJson {
    type Item = SiteModule;

    ghost Form = { PlainSiteModule };

    ghost plain = { plain_module };

    ghost form = { module_of };

    fn read(alloc: Global, value: &Value) -> Result<SiteModule, JsonRefusal> {
        read_module(alloc, value)
    }
}

impl Alike for ModuleJson {
    type Item = SiteModule;

    ghost Form = { PlainSiteModule };

    ghost plain = { plain_module };

    ghost same = { same_tag };

    fn is_like(item: &SiteModule, other: &SiteModule) -> bool {
        item.tag == other.tag
    }
}

#[tactic(auto, unfolding(crate::specs::Form::recipe_of))]
fn read_recipe(alloc: Global, value: &Value) -> Result<SiteRecipe, JsonRefusal>
    ensures { ReadsAs plain_recipe result (recipe_of (view value.now)) }
{
    object_here(alloc, value)?;
    let recipe = name_at(alloc, value, "recipe")?;
    let roles = roles_at(alloc, value)?;
    let root = node_at(alloc, value)?;
    nothing_but(alloc, value, "recipe roles chart")?;
    let chart = make_chart(alloc, roles, root)?;
    let chart = Arc::new(alloc, chart)?;
    Ok(SiteRecipe { recipe, chart })
}

/// The form of a recipe.
pub struct RecipeJson;

impl FromJson for RecipeJson {
    type Item = SiteRecipe;

    ghost Form = { PlainSiteRecipe };

    ghost plain = { plain_recipe };

    ghost form = { recipe_of };

    fn read(alloc: Global, value: &Value) -> Result<SiteRecipe, JsonRefusal> {
        read_recipe(alloc, value)
    }
}

#[tactic(auto, unfolding(crate::specs::Form::batch_of))]
fn read_batch(alloc: Global, value: &Value) -> Result<SiteBatch, JsonRefusal>
    ensures { ReadsAs plain_batch result (batch_of (view value.now)) }
{
    object_here(alloc, value)?;
    let batch = name_at(alloc, value, "batch")?;
    let recipe = name_at(alloc, value, "recipe")?;
    let bind = form_at::<BindsJson>(alloc, value, "bind")?;
    let watch = binds_or_none(alloc, value, "watch")?;
    nothing_but(alloc, value, "batch recipe bind watch")?;
    refused_under(
        alloc,
        "watch",
        shares_a_role(&bind, &watch),
        FaultKind::Repeated,
    )?;
    Ok(SiteBatch {
        batch,
        recipe,
        bind,
        watch,
    })
}

/// The form of a batch.
pub struct BatchJson;

impl FromJson for BatchJson {
    type Item = SiteBatch;

    ghost Form = { PlainSiteBatch };

    ghost plain = { plain_batch };

    ghost form = { batch_of };

    fn read(alloc: Global, value: &Value) -> Result<SiteBatch, JsonRefusal> {
        read_batch(alloc, value)
    }
}

impl Alike for BatchJson {
    type Item = SiteBatch;

    ghost Form = { PlainSiteBatch };

    ghost plain = { plain_batch };

    ghost same = { same_batch };

    fn is_like(item: &SiteBatch, other: &SiteBatch) -> bool {
        item.batch == other.batch
    }
}

#[tactic(auto, unfolding(crate::specs::Form::exchange_of))]
fn read_exchange(alloc: Global, value: &Value) -> Result<SiteExchange, JsonRefusal>
    ensures { ReadsAs plain_exchange result (exchange_of (view value.now)) }
{
    object_here(alloc, value)?;
    let tag = name_at(alloc, value, "tag")?;
    let after = u32_at(alloc, value, "after", 0, LONGEST_HISTORY as u32)?;
    let desc = form_at::<DescriptionJson>(alloc, value, "desc")?;
    let sim = form_at::<PlanJson>(alloc, value, "sim")?;
    nothing_but(alloc, value, "tag after desc sim")?;
    let desc = Arc::new(alloc, desc)?;
    Ok(SiteExchange {
        tag,
        after,
        desc,
        sim,
    })
}

/// The form of an exchange.
pub struct ExchangeJson;

impl FromJson for ExchangeJson {
    type Item = SiteExchange;

    ghost Form = { PlainSiteExchange };

    ghost plain = { plain_exchange };

    ghost form = { exchange_of };

    fn read(alloc: Global, value: &Value) -> Result<SiteExchange, JsonRefusal> {
        read_exchange(alloc, value)
    }
}

#[tactic(auto, unfolding(crate::specs::Form::desk_of))]
fn read_desk(alloc: Global, value: &Value) -> Result<SiteDesk, JsonRefusal>
    ensures { ReadsAs plain_desk result (desk_of (view value.now)) }
{
    object_here(alloc, value)?;
    let tag = name_at(alloc, value, "tag")?;
    let service = name_at(alloc, value, "service")?;
    let command = command_at(alloc, value, "CommandOp")?;
    let after = u32_at(alloc, value, "after", 0, LONGEST_HISTORY as u32)?;
    nothing_but(alloc, value, "tag service CommandOp after")?;
    Ok(SiteDesk {
        tag,
        service,
        command,
        after,
    })
}

/// The form of a command of the desk.
pub struct DeskJson;

impl FromJson for DeskJson {
    type Item = SiteDesk;

    ghost Form = { PlainSiteDesk };

    ghost plain = { plain_desk };

    ghost form = { desk_of };

    fn read(alloc: Global, value: &Value) -> Result<SiteDesk, JsonRefusal> {
        read_desk(alloc, value)
    }
}
