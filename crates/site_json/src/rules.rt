//! A site's own rules, item by item.
ghost use Rattle.std.specs.Prelude.{◌≡◌, ⊤, codes, map};
ghost use Rattle.std.specs.List.{list_any};
ghost use Rattle.std.specs.Str.{bytes_eq};
ghost use Rattle.mtp_assembly.specs.Plain.{plain_variable};
ghost use Rattle.mtp_desc.specs.PlainDescription.{plain_description};
ghost use Rattle.mtp_json.specs.ReadsAs.{ReadsAs};
ghost use Rattle.mtp_json.specs.ReadResult.{ReadResult, under};
ghost use Rattle.mtp_sim.specs.Sims.{plain_plan};
ghost use Rattle.mtp_sim.specs.declared.plan.Drift.{Drift as drift_type};
ghost use Rattle.pol_site.specs.Rules.{can_drift, has_module, is_drift_sound};
ghost use Rattle.pol_site.specs.Sites.{PlainSiteExchange, PlainSiteModule, PlainSiteRecipe};
ghost use Rattle.pol_site.specs.Views.{plain_exchange, plain_module, plain_recipe};
ghost use Rattle.site_json.specs.Ruled.{each_ruled, known_tag, sound_drift, sound_drifts, unlike_drifts, valid_chart};

use crate::plans::DriftJson;
use mtp_assembly::ViewKind;
use mtp_codes::Name;
use mtp_desc::Description;
use mtp_json::{FaultKind, JsonRefusal, in_place, refused_if, refused_under, under, unlike_under};
use mtp_sim::{Drift, SimPlan};
use pol_site::{SiteExchange, SiteModule, SiteRecipe};
use std::alloc::Global;

/// A rule that each item of a list has to keep.
pub(crate) trait OwnRule {
    type Item;

    ghost Form: { Type 0 };

    ghost plain: { Self.Item → Form };

    ghost rule: { Self → Form → ReadResult ⊤ };

    /// Checks the rule on an item.
    fn ask(&self, alloc: Global, item: &Self::Item) -> Result<(), JsonRefusal>
        ensures { ReadsAs (λ unit. unit) result (rule self.now (plain item.now)) };
}

/// Checks the rule on each item, from first to last; a fault has the place in front of its path.
pub(crate) fn ask_each<T: OwnRule>(
    alloc: Global,
    rule: &T,
    items: &[T::Item],
) -> Result<(), JsonRefusal>
    ensures { ReadsAs (λ unit. unit) result (each_ruled (T.rule rule.now) 0 (map T.plain items.now)) }
{
    for (place, item) in items.iter().enumerate() {
        in_place(place, rule.ask(alloc, item))?;
    }
    Ok(())
}

// ---- drifts

fn can_drift(kind: ViewKind) -> bool
    ensures { result ≡ can_drift kind }
{
    matches!(kind, ViewKind::Ana | ViewKind::DInt)
}

fn is_drift_sound(description: &Description, drift: &Drift) -> bool
    ensures { result ≡ is_drift_sound (plain_description description.now) drift.now }
{
    match description.variable(drift.name) {
        Some(variable) => can_drift(variable.kind) && drift.by >= 1 && drift.from <= drift.to,
        None => false,
    }
}

// Each drift is sound by the module's description.
#[derive(Clone, Copy)]
struct SoundDrift<'a> {
    description: &'a Description,
}

impl<'a> OwnRule for SoundDrift<'a> {
    type Item = Drift;

    ghost Form = { drift_type };

    ghost plain = { λ drift. drift };

    ghost rule = { λ asked drift. sound_drift (plain_description asked.description.now) drift };

    fn ask(&self, alloc: Global, item: &Drift) -> Result<(), JsonRefusal> {
        refused_if(
            alloc,
            !is_drift_sound(self.description, item),
            FaultKind::Unsound,
        )
    }
}

#[tactic(auto, using(mtp_json::proofs::Each::gives_below))]
fn drifts_under(
    alloc: Global,
    description: &Description,
    drifts: &[Drift],
) -> Result<(), JsonRefusal>
    ensures { ReadsAs (λ unit. unit) result
        (under (codes "drift") (each_ruled (sound_drift (plain_description description.now)) 0 drifts.now)) }
{
    let rule = SoundDrift { description };
    under("drift", ask_each(alloc, &rule, drifts))
}

#[tactic(auto, using(mtp_json::proofs::Each::gives_below))]
fn sound_drifts(alloc: Global, description: &Description, plan: &SimPlan) -> Result<(), JsonRefusal>
    ensures { ReadsAs (λ unit. unit) result (sound_drifts (plain_description description.now) (plain_plan plan.now)) }
{
    under("sim", drifts_under(alloc, description, &plan.drifts))
}

#[tactic(auto, using(mtp_json::proofs::Each::gives_below))]
fn unlike_drifts(alloc: Global, plan: &SimPlan) -> Result<(), JsonRefusal>
    ensures { ReadsAs (λ unit. unit) result (unlike_drifts (plain_plan plan.now)) }
{
    under(
        "sim",
        unlike_under::<DriftJson>(alloc, "drift", &plan.drifts),
    )
}

/// No variable of a module drifts twice.
#[derive(Clone, Copy)]
pub(crate) struct UnlikeOfModule;

impl OwnRule for UnlikeOfModule {
    type Item = SiteModule;

    ghost Form = { PlainSiteModule };

    ghost plain = { plain_module };

    ghost rule = { λ _ unit. unlike_drifts unit.plan };

    fn ask(&self, alloc: Global, item: &SiteModule) -> Result<(), JsonRefusal> {
        unlike_drifts(alloc, &item.sim)
    }
}

/// No variable of an exchange's module drifts twice.
#[derive(Clone, Copy)]
pub(crate) struct UnlikeOfExchange;

impl OwnRule for UnlikeOfExchange {
    type Item = SiteExchange;

    ghost Form = { PlainSiteExchange };

    ghost plain = { plain_exchange };

    ghost rule = { λ _ exchange. unlike_drifts exchange.plan };

    fn ask(&self, alloc: Global, item: &SiteExchange) -> Result<(), JsonRefusal> {
        unlike_drifts(alloc, &item.sim)
    }
}

/// The drifts of a module are sound.
#[derive(Clone, Copy)]
pub(crate) struct SoundOfModule;

impl OwnRule for SoundOfModule {
    type Item = SiteModule;

    ghost Form = { PlainSiteModule };

    ghost plain = { plain_module };

    ghost rule = { λ _ unit. sound_drifts unit.description unit.plan };

    fn ask(&self, alloc: Global, item: &SiteModule) -> Result<(), JsonRefusal> {
        sound_drifts(alloc, &item.desc, &item.sim)
    }
}

/// The drifts of an exchange's module are sound.
#[derive(Clone, Copy)]
pub(crate) struct SoundOfExchange;

impl OwnRule for SoundOfExchange {
    type Item = SiteExchange;

    ghost Form = { PlainSiteExchange };

    ghost plain = { plain_exchange };

    ghost rule = { λ _ exchange. sound_drifts exchange.description exchange.plan };

    fn ask(&self, alloc: Global, item: &SiteExchange) -> Result<(), JsonRefusal> {
        sound_drifts(alloc, &item.desc, &item.sim)
    }
}

// ---- exchanges and recipes

fn any_with_tag(modules: &[SiteModule], tag: Name) -> bool
    ensures { result ≡ list_any (λ unit. bytes_eq unit.tag tag) modules.now }
{
    modules.iter().any(|unit| unit.tag == tag)
}

#[tactic(auto, using(mtp_codes::proofs::Repeats::any_map))]
fn has_module(modules: &[SiteModule], tag: Name) -> bool
    ensures { result ≡ has_module (map plain_module modules.now) tag }
{
    any_with_tag(modules, tag)
}

/// An exchange is of a tag that one of these modules has.
#[derive(Clone, Copy)]
pub(crate) struct KnownTag<'a> {
    pub modules: &'a [SiteModule],
}

impl<'a> OwnRule for KnownTag<'a> {
    type Item = SiteExchange;

    ghost Form = { PlainSiteExchange };

    ghost plain = { plain_exchange };

    ghost rule = { λ asked exchange. known_tag (map plain_module asked.modules.now) exchange };

    fn ask(&self, alloc: Global, item: &SiteExchange) -> Result<(), JsonRefusal> {
        refused_if(
            alloc,
            !has_module(self.modules, item.tag),
            FaultKind::Unsound,
        )
    }
}

/// The chart of a recipe is valid.
#[derive(Clone, Copy)]
pub(crate) struct ValidChart;

impl OwnRule for ValidChart {
    type Item = SiteRecipe;

    ghost Form = { PlainSiteRecipe };

    ghost plain = { plain_recipe };

    ghost rule = { λ _ each. valid_chart each };

    fn ask(&self, alloc: Global, item: &SiteRecipe) -> Result<(), JsonRefusal> {
        refused_under(
            alloc,
            "chart",
            item.chart.valid().is_err(),
            FaultKind::BadChart,
        )
    }
}
