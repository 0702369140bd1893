//! Which commands the policy of a plant lets a person send.

use mtp_codes::{Command, Name};
use pol_overview::Allowing;
use pol_policy::Verdict;
use pol_rights::PlantPolicy;

/// What the policy of a plant lets this person command; where nobody is named, it isn't asked.
#[derive(Drop)]
pub struct AllowedTo<'a> {
    /// The policy.
    pub policy: &'a PlantPolicy,
    /// Who would command.
    pub person: Option<Name>,
}

impl Allowing for AllowedTo<'_> {
    ghost use Rattle.pol_rights.specs.PlainPlantPolicy.{plain_plant_policy};
    ghost use Rattle.pol_operate.specs.Questions.{allows_by};

    ghost allows = { λ allowed. allows_by (plain_plant_policy allowed.policy.now) allowed.person };

    fn allows(&self, tag: Name, service: Name, command: Command) -> bool {
        match self.person {
            Some(person) => matches!(
                self.policy.commands.judge(person, tag, service, command),
                Verdict::Allowed(_)
            ),
            None => true,
        }
    }
}
