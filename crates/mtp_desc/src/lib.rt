//! Descriptions of modules (VDI/VDE/NAMUR 2658): which services, procedures, parameters and variables a module has, and
//! the version of its type.
//!
//! Every `Description` keeps by its ghost fields what the form of a description asks (`specs/Plain.antt` says it as
//! plain data); `desc_json` reads and writes that form. This crate knows no text form, and nothing of recipes, of
//! what a service reports or of how a module is bound.
//!
//! Tried in `mtp_examples`.
#![tactic(auto)]

mod description;
mod limits;
mod procedure;
mod service;

pub use description::Description;
pub use limits::{
    GREATEST_PROCEDURE, LONGEST_VERSION, MOST_PARAMS, MOST_PROCEDURES, MOST_SERVICES,
    MOST_VARIABLES,
};
pub use procedure::Procedure;
pub use service::Service;
