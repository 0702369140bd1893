//! The law that the binding or the shortage that is found is right.

ghost use Rattle.pol_match.specs.Findings.{EachIsToldRightly};

/// What is answered for a chart and candidates, a function of them, is the chart's least binding, or a shortage where
/// it has none.
pub fn told_rightly()
    ensures { EachIsToldRightly }
{}
