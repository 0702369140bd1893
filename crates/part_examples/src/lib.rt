//! Worked examples of the parts of a plant: slots and batches, which module may play a role and how one is found, and
//! which commands an operator may send, by permission and by policy: tests alone.
#![tactic(auto)]

#[cfg(test)]
mod batch_runs;
#[cfg(test)]
mod commands;
#[cfg(test)]
mod covering;
#[cfg(test)]
mod finder;
#[cfg(test)]
mod policies;
#[cfg(test)]
mod slots;
