//! Worked examples of the whole plant, of the line of its bindings, of looking back over its history, and of demos: tests
//! alone.
#![tactic(auto)]

#[cfg(test)]
mod bindings;
#[cfg(test)]
mod held_orders;
#[cfg(test)]
mod looking_back;
#[cfg(test)]
mod plant;
#[cfg(test)]
mod summaries;
