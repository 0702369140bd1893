//! The verdict of a plant's policy on what a line says.
ghost use Rattle.std.specs.Prelude.{◌≡◌};
ghost use Rattle.std.specs.Option.{option_map};
ghost use Rattle.named_lines.specs.Named.{plain_named};
ghost use Rattle.pol_rights.specs.PlainPlantPolicy.{plain_plant_policy};
ghost use Rattle.pol_operate.specs.Lines.{verdict_on, verdict_under};

use crate::kinds::kind_of;
use named_lines::Named;
use pol_guard::verdict_on as verdict_on_command;
use pol_policy::Verdict;
use pol_rights::PlantPolicy;

/// The verdict of a policy; None where it is asked nothing.
pub fn verdict_on(policy: &PlantPolicy, said: &Named) -> Option<Verdict>
    ensures { result ≡ verdict_on (plain_plant_policy policy.now) (plain_named said.now) }
{
    match verdict_on_command(&policy.commands, &said.event, said.by) {
        Some(verdict) => Some(verdict),
        None => policy.judge_line(said.by, kind_of(&said.event)),
    }
}

/// The verdict where a policy is known; where none is, nothing is asked of it.
pub fn verdict_under(policy: &Option<PlantPolicy>, said: &Named) -> Option<Verdict>
    ensures { result ≡ verdict_under (option_map plain_plant_policy policy.now) (plain_named said.now) }
{
    match policy {
        Some(policy) => verdict_on(policy, said),
        None => None,
    }
}
