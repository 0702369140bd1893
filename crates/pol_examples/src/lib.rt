//! Worked runs of the program's jobs, on `pol_cli::top`: tests alone.
#![tactic(auto)]

#[cfg(test)]
mod audits;
#[cfg(test)]
mod batches;
#[cfg(test)]
mod edges;
#[cfg(test)]
mod exchanges;
#[cfg(test)]
mod faults;
#[cfg(test)]
mod finding;
#[cfg(test)]
mod guarding;
#[cfg(test)]
mod holding;
#[cfg(test)]
mod keeping;
#[cfg(test)]
mod limits;
#[cfg(test)]
mod lines;
#[cfg(test)]
mod looking_back;
#[cfg(test)]
mod modules;
#[cfg(test)]
mod operating;
#[cfg(test)]
mod plants;
#[cfg(test)]
mod rules;
#[cfg(test)]
mod runs;
#[cfg(test)]
mod serving;
#[cfg(test)]
mod sites;
#[cfg(test)]
mod stamps;
#[cfg(test)]
mod starts;
#[cfg(test)]
mod watchers;
#[cfg(test)]
mod watching;
#[cfg(test)]
mod words;
