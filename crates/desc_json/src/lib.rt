//! Descriptions of modules in JSON.
//!
//! The form is `description_of` in `specs/Form.antt`. `read_description` gives what the form gives, the description or
//! the first fault in reading order; `write_description` writes the whole form, and the form of what it writes is the
//! description again. `mtp_desc` says what a description is.
//!
//! Tried in `mtp_examples`.
#![tactic(auto)]

mod params;
mod procedures;
mod reading;
mod services;
mod variables;
mod words;
mod writing;

pub use reading::{DescriptionJson, read_description};
pub use writing::write_description;
