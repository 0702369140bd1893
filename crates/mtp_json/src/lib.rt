//! Reading values of `serde_json` by their forms, and writing them.
//!
//! A form is a definition over the value that `serde_json` reads (`specs/Form.antt`): the value that is meant, or the
//! first fault in reading order with its path. Every reader here has the one clause that it gives what its form gives
//! (`specs/ReadsAs.antt`), and every writer says which value it writes. The crates above write forms and nothing else.
//! This crate knows nothing of descriptions, recipes, events or sites.
//!
//! Tried in `mtp_examples`.
#![tactic(auto)]

mod alike;
mod at_key;
mod every;
mod fault;
mod fields;
mod leaves;
mod names;
mod parsing;
mod path;
mod placed;
mod words;
mod written;

pub use alike::{Alike, repeats, unlike_under};
pub use at_key::{
    command_at, i32_at, i64_at, list_at, list_if, list_in, name_at, scalar_at, short_at, state_at,
    text_at, truth_at, truth_or, u16_at, u32_at, u64_at, value_at, whole_at, word_at,
};
pub use every::{
    FromJson, form_at, form_if_there, list_if_there, list_of, list_or_none, read_every,
};
pub use fault::{FaultKind, JsonFault, JsonRefusal};
pub use fields::{
    get_bool, get_list, get_name, get_object, get_text, get_u64, get_whole, get_word, only,
};
pub use leaves::{name_of, scalar_of, whole_of};
pub use names::NameJson;
pub use parsing::parse;
pub use path::{Path, PathPart};
pub use placed::{
    here, in_place, keyed, nothing_but, object_here, refused_if, refused_under, under,
};
pub use words::Words;
pub use written::{ToJson, write_list, write_scalar};
