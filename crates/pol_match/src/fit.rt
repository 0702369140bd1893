//! Whether a candidate can play a role of a chart, by what the role needs.

ghost use Rattle.std.specs.Prelude.{◌≡◌, map};
ghost use Rattle.std.specs.List.{list_all};
ghost use Rattle.mtp_codes.specs.Names.{is_among};
ghost use Rattle.chart_core.specs.Order.{plans_seen};
ghost use Rattle.pol_bind.specs.PlainNeeds.{plain_needs};
ghost use Rattle.pol_match.specs.Candidates.{plain_candidate};
ghost use Rattle.pol_match.specs.Needed.{fits_needs};

use crate::candidate::Candidate;
use chart_core::Step;
use mtp_codes::Name;
use pol_bind::Needs;

// Whether the name is one of these.
fn is_one_of(names: &[Name], name: Name) -> bool
    ensures { result ≡ is_among names.now name }
{
    names.iter().any(|each| *each == name)
}

// Whether each service of the steps is idle.
fn is_ready(steps: &[&Step], idle: &[Name]) -> bool
    ensures { result ≡ list_all (is_among idle.now) (map (λ step. step.service) (plans_seen steps.now)) }
{
    for step in steps {
        if !is_one_of(idle, step.service) {
            return false;
        }
    }
    true
}

/// Whether the candidate can play a role that needs this.
pub(crate) fn fits(needs: &Needs<'_>, candidate: &Candidate) -> bool
    ensures { result ≡ fits_needs (plain_needs needs.now) (plain_candidate candidate.now) }
{
    needs.are_met(&candidate.description) && is_ready(&needs.steps, &candidate.idle)
}
