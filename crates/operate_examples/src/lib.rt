//! Worked examples of operated plants: tests alone.
#![tactic(auto)]

#[cfg(test)]
mod runs;
