//! Writes the output lines: the line of an answer, of a fault, of an entry of a history, of a batch and of a verdict,
//! and the line that ends every output.
//!
//! Each line is one JSON object in `serde_json`'s compact text (RFC 8259) and a line feed, byte for byte the text that
//! `specs/Texts.antt` defines; `specs/Lines.antt` says which lines an input brings. A rule, a log entry, an obstacle
//! and a fault are each a list of fields by a table (`specs/Rows.antt`; that of the rules is in `event_json`), and one
//! function writes fields, token by token, into a buffer that its caller keeps. One pass over a history gathers the
//! start, the log and the outcome of each batch (`gather`), and each is what looking back over the history finds
//! (`specs/Gathered.antt`). This crate knows nothing of how an answer is found, or of where a line is written.
//!
//! Tried in `event_examples`.
#![tactic(auto)]

mod answers;
mod batches;
mod entry_lines;
mod faults;
mod gathering;
mod lines;
mod objects;
mod records;
mod rows;
mod verdicts;

pub use answers::{
    entry_fields, obstacle_fields, outcome_name, refusal_fields, write_answer, write_entry,
};
pub use batches::{batch_line, batch_log, gathered_line, write_binds, write_text};
pub use entry_lines::{entry_line, event_text, put_entry_line};
pub use faults::kind_name;
pub use gathering::{BatchRecords, gather};
pub use lines::{answer_line, end_line, ended_line, fault_line, put_answer_line, put_fault_line};
pub use objects::write_scalar;
pub use records::{BatchRecord, Start, starting};
pub use rows::forbid_name;
pub use verdicts::{Verdict, verdict_line};
