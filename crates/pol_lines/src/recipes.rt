//! Lines that make a recipe known.
ghost use Rattle.std.specs.Prelude.{◌≡◌, ◌∷◌, ℕ, [], IfSome, IsTrue, None, Ok, codes, map, true};
ghost use Rattle.std.specs.List.{list_all};
ghost use Rattle.serde_json.specs.Data.{Data, Items, array};
ghost use Rattle.mtp_codes.specs.Numbers.{greatest_u64};
ghost use Rattle.mtp_json.specs.Form.{field, is_listed};
ghost use Rattle.mtp_json.specs.Leaf.{count, name, word};
ghost use Rattle.chart_core.specs.Charts.{plain_chart};
ghost use Rattle.chart_core.specs.Form.{is_tree_formed};
ghost use Rattle.chart_core.specs.Roles.{plain_role};
ghost use Rattle.chart_core.specs.Trees.{plain_node};
ghost use Rattle.chart_core.specs.Valid.{chart_fault};
ghost use Rattle.chart_json.specs.Form.{are_roles_sized, chart_from, roles_of, tree_of};
ghost use Rattle.pol_events.specs.Events.{plain_event};
ghost use Rattle.event_json.specs.Forms.{event_in};
ghost use Rattle.event_json.specs.Lines.{event_of, fault_within};
ghost use Rattle.event_json.specs.Words.{kind_words};
ghost use Rattle.pol_lines.specs.Flat.{flat_data};
ghost use Rattle.pol_lines.specs.Keys.{key_text};
ghost use Rattle.pol_lines.specs.Kinds.{keys_of};
ghost use Rattle.pol_lines.specs.Objects.{Makes, Stands};

use crate::fields::{count_at, kind_at, name_at};
use crate::flat::Member;
use crate::key::Key;
use crate::kinds::only;
use crate::nodes::NodeFronts;
use crate::objects::{Cut, ends, read_flats, read_list_at, read_value_at};
use crate::roles::RoleFronts;
use arrayvec::ArrayVec;
use chart_core::{Chart, ChartFault, MOST_ROLES, Node, Role};
use chart_json::make_chart;
use event_json::EventKind;
use mtp_codes::Name;
use pol_events::Event;
use std::alloc::Global;
use std::sync::Arc;

fn chart_fault(chart: &Chart) -> Option<ChartFault>
    ensures { result ≡ chart_fault (plain_chart chart.now) }
{
    chart.valid().err()
}

/// The chart of these roles and this root, if it is valid.
fn chart_in(alloc: Global, roles: Vec<Role>, root: Node) -> Option<Arc<Chart>>
    requires sized { IsTrue (are_roles_sized (map plain_role roles.items)) }
    requires formed { IsTrue (is_tree_formed (plain_node root)) }
    ensures made { IfSome result
        (λ chart. chart_from (map plain_role roles.items) (plain_node root) ≡ Ok (plain_chart chart.value)) }
    ensures valid { IfSome result (λ chart. chart_fault (plain_chart chart.value) ≡ None) }
{
    let Ok(chart) = make_chart(alloc, roles, root) else {
        return None;
    };
    if chart_fault(&chart).is_some() {
        return None;
    }
    match Arc::new(alloc, chart) {
        Ok(chart) => Some(chart),
        Err(_) => None,
    }
}

/// The stamp and the name of a recipe, of whose members these are the flat ones.
fn stamp_and_name(members: &[Member]) -> Option<(u64, Name)>
    ensures listed { IfSome result
        (λ _. list_all (λ member. is_listed (keys_of EventKind.Recipe) (key_text member.key)) members.now ≡ true) }
    ensures kind { IfSome result
        (λ _. field (codes "ev") (word kind_words) (flat_data members.now) ≡ Ok EventKind.Recipe) }
    ensures stamp { IfSome result (λ found. field (codes "at") (count 0 greatest_u64) (flat_data members.now)
        ≡ Ok found.0) }
    ensures name { IfSome result (λ found. field (codes "recipe") name (flat_data members.now) ≡ Ok found.1) }
{
    if !only(EventKind::Recipe, members) {
        return None;
    }
    let EventKind::Recipe = kind_at(members, Key::Ev)? else {
        return None;
    };
    let at = count_at(members, Key::At, 0, u64::MAX)?;
    let recipe = name_at(members, Key::Recipe)?;
    Some((at, recipe))
}

/// A recipe of these flat members and of the chart of these roles and this root, by its form.
fn recipe_in(alloc: Global, members: &[Member], roles: Vec<Role>, root: Node) -> Option<Event>
    requires sized { IsTrue (are_roles_sized (map plain_role roles.items)) }
    requires formed { IsTrue (is_tree_formed (plain_node root)) }
    ensures says { IfSome result (λ event. (played : Items) (value : Data)
        → roles_of (array played) ≡ Ok (map plain_role roles.items) → tree_of value ≡ Ok (plain_node root)
        → Makes event_in (plain_event event) members.now
        ((codes "chart", value) ∷ (codes "roles", array played) ∷ [])) }
    ensures faultless { IfSome result (λ event. fault_within (plain_event event) ≡ None) }
{
    let (at, recipe) = stamp_and_name(members)?;
    let chart = chart_in(alloc, roles, root)?;
    Some(Event::Recipe { at, recipe, chart })
}

/// The event that a line with a recipe says, where its roles come next: its chart comes behind them.
#[inline(never)]
pub fn read_recipe<'a>(
    alloc: Global,
    line: &'a [u8],
    cut: Cut<'a>,
    members: &mut ArrayVec<Member<'a>, 9>,
) -> Option<Event>
    requires { (deep : ℕ) → Stands deep line.now members.old.items [] cut }
    ensures { IfSome result (λ event. event_of line.now ≡ Ok (plain_event event)) }
{
    let mut roles = Vec::new(alloc);
    let cut = read_list_at::<RoleFronts>(alloc, cut, b"\"roles\":", MOST_ROLES, &mut roles)?;
    let mut found = None;
    let cut = read_value_at::<NodeFronts>(alloc, cut, b"\"chart\":", &mut found)?;
    if !ends(read_flats(cut, members), line) || roles.is_empty() {
        return None;
    }
    let root = found?;
    let event = recipe_in(alloc, members.as_slice(), roles, root)?;
    Some(event)
}
