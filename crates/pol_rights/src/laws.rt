//! What holds of every verdict on a line, and of policies without rules of lines.
ghost use Rattle.pol_rights.specs.Laws.{LinesAreJudged, PoliciesAreAlike};

/// A law: the verdict on a line as a function is the one that the definitions give, by chains of groups of any length.
/// The function has an empty body.
#[tactic(auto, using(crate::proofs::Judging::lines_judged))]
pub fn lines_are_judged()
    ensures { LinesAreJudged }
{}

/// A law: a line without the key `lines` is read as the policy that it says to the job guard, which judges no line, or
/// with the same fault. The function has an empty body.
#[tactic(auto, using(crate::proofs::Alike::policies_alike))]
pub fn policies_are_alike()
    ensures { PoliciesAreAlike }
{}
