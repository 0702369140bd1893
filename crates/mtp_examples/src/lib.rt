//! Worked examples of names, states and permission, of parameters, of JSON forms and descriptions, and of simulated
//! modules: tests alone.
#![tactic(auto)]

#[cfg(test)]
mod descriptions;
#[cfg(test)]
mod edges;
#[cfg(test)]
mod json_forms;
#[cfg(test)]
mod names;
#[cfg(test)]
mod parameters;
#[cfg(test)]
mod permission;
#[cfg(test)]
mod simulated;
