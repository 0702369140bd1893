//! Worked examples of sites that are run to their end, in one thread and by several: tests alone.
#![tactic(auto)]

#[cfg(test)]
mod refused_threads;
#[cfg(test)]
mod threads;
