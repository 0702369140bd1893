//! Worked examples of the policies of plants: what is wrong with others, and who may give which lines: tests alone.
#![tactic(auto)]

#[cfg(test)]
mod lines;
#[cfg(test)]
mod policies;
