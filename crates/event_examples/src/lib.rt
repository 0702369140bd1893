//! Worked examples of event lines, of output lines and of the texts of sites: tests alone.
#![tactic(auto)]

#[cfg(test)]
mod event_lines;
#[cfg(test)]
mod events;
#[cfg(test)]
mod output_lines;
#[cfg(test)]
mod persons;
#[cfg(test)]
mod questions;
#[cfg(test)]
mod quick_lines;
#[cfg(test)]
mod site_texts;
