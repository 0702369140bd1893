//! A plant whose events are kept with who asked for them, each record sealed by a sum over all before it.
//!
//! It is `pol_kept` over a `Ledger`: a header that names the build of the program that began it, and then events, each
//! with the name of who asked for it. The text of a record is its sum and its body (`specs/Items.antt`), and the sum is
//! SHA-256 over the sum before and the body. So a record that was changed, or that comes after others than its own,
//! doesn't follow (`specs/Work.antt`, `IsTextOf`), and `open` gives its place. The gate before a record is no part of
//! its text: where it was closed the ledger ends, as before the record was kept, and only a sum that was noted
//! elsewhere shows that. For by `sums_tell_items` the sum of the last record determines all items, as long as nobody
//! has two messages with one SHA-256.
//!
//! The other main contracts are those of `open` and of the `Chronicle` methods of `Ledger`. It knows nothing of files,
//! of lines of input, or of whether who asked may.
//!
//! Tried in `operate_examples`.
#![tactic(auto)]

mod bodies;
mod build;
mod items;
mod laws;
mod ledger;
mod opening;
mod sums;

pub use bodies::FORM;
pub use build::{Build, THIS_BUILD};
pub use items::{Asked, LedgerAnswer, LedgerItem};
pub use laws::{images_stand_for_one_ledger, records_follow_one_ledger, sums_tell_items};
pub use ledger::Ledger;
pub use opening::open;
