//! Steps at the front of a text.
ghost use Rattle.std.specs.Prelude.{◌≡◌, ◌≤◌, ℕ, List, IfSome, Ok, codes, length};
ghost use Rattle.std.specs.List.{list_all};
ghost use Rattle.serde_json.specs.Data.{Data};
ghost use Rattle.mtp_json.specs.Form.{is_listed};
ghost use Rattle.mtp_codes.specs.declared.value.Setting.{Setting as SettingForm};
ghost use Rattle.chart_core.specs.Trees.{plain_finish, plain_step};
ghost use Rattle.chart_json.specs.Form.{same_setting, setting_of, step_of};
ghost use Rattle.chart_core.specs.declared.limits.TheConstants.{MOST_SETTINGS};
ghost use Rattle.pol_lines.specs.Begins.{Reads, last_of};
ghost use Rattle.pol_lines.specs.Flat.{flat_data};
ghost use Rattle.pol_lines.specs.Keys.{key_text};
ghost use Rattle.pol_lines.specs.Objects.{Makes};
ghost use Rattle.pol_lines.specs.Steps.{GivesStep};

use crate::conditions::ConditionFronts;
use crate::fields::{count_at, name_at, scalar_at};
use crate::flat::Member;
use crate::key::Key;
use crate::lists::Front;
use crate::objects::{Cut, begin_object, read_flats, read_list_at, read_object, read_value_at};
use arrayvec::ArrayVec;
use chart_core::{Condition, MOST_SETTINGS, Step};
use mtp_codes::Setting;
use mtp_json::{Alike, repeats};
use std::alloc::Global;

fn are_of_setting(members: &[Member]) -> bool
    ensures { result ≡ list_all (λ member. is_listed (codes "name value") (key_text member.key)) members.now }
{
    members
        .iter()
        .all(|member| matches!(member.key, Key::Name | Key::Value))
}

/// A setting by its form.
#[tactic(auto, using(crate::proofs::Lookups::only_listed), unfolding(chart_json::specs::Form::setting_of))]
fn setting_in(members: &[Member]) -> Option<Setting>
    ensures { IfSome result (λ setting. setting_of (flat_data members.now) ≡ Ok setting) }
{
    if !are_of_setting(members) {
        return None;
    }
    let name = name_at(members, Key::Name)?;
    let value = scalar_at(members, Key::Value)?;
    Some(Setting { name, value })
}

struct SettingFronts;

impl Front for SettingFronts {
    type Item = Setting;

    ghost Form = { SettingForm };

    ghost plain = { λ setting. setting };

    ghost form = { setting_of };

    ghost deep = { 1 };

    fn read(_alloc: Global, text: &[u8]) -> Option<(Setting, usize)> {
        let mut members = ArrayVec::new();
        let rest = read_object(text, &mut members)?;
        let setting = setting_in(members.as_slice())?;
        Some((setting, rest.len()))
    }
}

impl Alike for SettingFronts {
    type Item = Setting;

    ghost Form = { SettingForm };

    ghost plain = { λ setting. setting };

    ghost same = { same_setting };

    fn is_like(item: &Setting, other: &Setting) -> bool {
        item.name == other.name
    }
}

fn are_of_step(members: &[Member]) -> bool
    ensures { result ≡ list_all (λ member. is_listed (codes "step role service procedure settings finish")
        (key_text member.key)) members.now }
{
    members.iter().all(|member| {
        matches!(
            member.key,
            Key::Step | Key::Role | Key::Service | Key::Procedure
        )
    })
}

/// A step of these flat members, these settings and this condition, by its form.
fn step_in(members: &[Member], settings: Vec<Setting>, finish: Option<Condition>) -> Option<Step>
    requires { length settings.items ≤ MOST_SETTINGS }
    ensures { IfSome result (λ step. (others : List (List ℕ × Data))
        → GivesStep settings.items (plain_finish finish) others
        → Makes step_of (plain_step step) members.now others) }
{
    if !are_of_step(members) || repeats::<SettingFronts>(&settings) {
        return None;
    }
    let name = name_at(members, Key::Step)?;
    let role = name_at(members, Key::Role)?;
    let service = name_at(members, Key::Service)?;
    let procedure = count_at(members, Key::Procedure, 1, u16::MAX as u64)? as u16;
    Some(Step {
        name,
        role,
        service,
        procedure,
        settings,
        finish,
    })
}

/// The step at the front of a text, with how many bytes follow it: its condition comes first or behind its settings.
// Never inlined: each call of a node around the steps would else set up a step's lists.
#[inline(never)]
pub fn read_step(alloc: Global, text: &[u8]) -> Option<(Step, usize)>
    ensures { IfSome result (λ read. Reads step_of 16 text.now (plain_step read.0) (last_of read.1 text.now)) }
{
    let mut members = ArrayVec::new();
    let cut = begin_object(text)?;
    let mut early = None;
    let cut = read_value_at::<ConditionFronts>(alloc, cut, b"\"finish\":", &mut early)?;
    let cut = read_flats(cut, &mut members);
    let mut settings = Vec::new(alloc);
    let cut = read_list_at::<SettingFronts>(
        alloc,
        cut,
        b"\"settings\":",
        MOST_SETTINGS,
        &mut settings,
    )?;
    let cut = read_flats(cut, &mut members);
    let mut late = None;
    let cut = read_value_at::<ConditionFronts>(alloc, cut, b"\"finish\":", &mut late)?;
    let Cut::End(rest) = read_flats(cut, &mut members) else {
        return None;
    };
    let step = step_in(members.as_slice(), settings, late.or(early))?;
    Some((step, rest.len()))
}
