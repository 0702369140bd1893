//! The meaning of a plant's journal: what looking back in a history finds, which answer each event gets, and which
//! histories are legal. These are definitions, with the first laws about them: each law is the contract of a function
//! with an empty body.
//!
//! This crate knows nothing of tables or of how an answer is found: `pol_audit` and `pol_core` are held against it.
//! What follows from the definitions is in `pol_safety` and `pol_removal`, which build on it.
//!
//! Laws alone: no test tries them.
#![tactic(auto)]

ghost use Rattle.pol_history.specs.Paths.{ReportsArePaths};
ghost use Rattle.pol_history.specs.Refused.{RefusedChangesNothing};
ghost use Rattle.pol_history.specs.Runs.{RunsAreLegal};

/// Whatever events come, the history that they leave is legal.
pub fn runs_are_legal()
    ensures { RunsAreLegal }
{}

/// A refused event changes nothing that is found by looking back.
pub fn refused_changes_nothing()
    ensures { RefusedChangesNothing }
{}

/// In every legal history the accepted reports of a service since its module was docked are a path of the state
/// machine.
pub fn reports_are_paths()
    ensures { ReportsArePaths }
{}
