//! Worked examples of charts: their texts, their logs, what comes next in a run, and what a step demands of a module:
//! tests alone.
#![tactic(auto)]

#[cfg(test)]
mod chart_logs;
#[cfg(test)]
mod chart_texts;
#[cfg(test)]
mod charts;
#[cfg(test)]
mod cursors;
#[cfg(test)]
mod demands;
