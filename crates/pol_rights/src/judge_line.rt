//! The verdict of a plant's policy on a line.
ghost use Rattle.std.specs.Prelude.{◌≡◌};
ghost use Rattle.pol_rights.specs.Giving.{SaysToLine};
ghost use Rattle.pol_rights.specs.PlainPlantPolicy.{plain_plant_policy};
ghost use Rattle.pol_rights.specs.Verdicts.{verdict_on_line};

use crate::kinds::is_desk;
use crate::plant_policy::PlantPolicy;
use event_json::EventKind;
use mtp_codes::Name;
use pol_policy::Verdict;

impl PlantPolicy {
    // The verdict on a line, where rules judge it.
    #[tactic(auto, unfolding(crate::specs::Verdicts::verdict_on_line))]
    fn verdict_on(&self, by: Option<Name>, kind: EventKind) -> Option<Verdict>
        ensures { result ≡ verdict_on_line (plain_plant_policy self.now) by kind }
    {
        if is_desk(kind) {
            return None;
        }
        match &self.lines {
            Some(rules) => Some(rules.judge(by, kind)),
            None => None,
        }
    }

    /// Whether this person, or nobody who is named, may give a line of this kind: allowed exactly where some rule of
    /// lines that allows matches and no such rule that denies does, with the first that allows; else denied, with the
    /// first that denies, if one matches. None where no rule judges the line: the policy has no rules of lines, or the
    /// line is a command of the desk.
    pub fn judge_line(&self, by: Option<Name>, kind: EventKind) -> Option<Verdict>
        ensures value { result ≡ verdict_on_line (plain_plant_policy self.now) by kind }
        ensures judged { SaysToLine (plain_plant_policy self.now) by kind result }
    {
        self.verdict_on(by, kind)
    }
}
