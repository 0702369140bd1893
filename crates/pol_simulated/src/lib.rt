//! Laws of simulated modules: a module is in step with what it reported in the history, and its changes are counted
//! against the commands that it looked at; so each change has its command, and its reports are allowed. An event that
//! brings a module a plan brings it the site's plan. Each is a law over plain data in specs/, proved by a lemma of that
//! type in proofs/.
//!
//! It knows nothing of batches, of threads or of who takes turns. `specs/Units.antt` defines when a module is in step.
//!
//! Laws alone: no test tries them.
#![tactic(auto)]
