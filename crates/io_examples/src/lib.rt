//! Worked examples of sources and sinks, lines and clocks, of the order of a job's calls, of the words of a command
//! line, of docked parts and their table, and of the status board: tests alone.
#![tactic(auto)]

#[cfg(test)]
mod arguments;
#[cfg(test)]
mod boards;
#[cfg(test)]
mod docked;
#[cfg(test)]
mod handing_on;
#[cfg(test)]
mod streams;
#[cfg(test)]
mod tables;
