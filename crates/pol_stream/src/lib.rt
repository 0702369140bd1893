//! Reading a source to its end, before anything is done with its bytes.
//!
//! `read_to_end` gives all bytes of a source, however many they are, and `read_input` those of an input, which has at
//! most so many. It knows nothing of what the bytes say.
//!
//! Tried in `pol_examples`.
#![tactic(auto)]

mod input;
mod more;
mod stream;

pub use input::read_input;
pub use more::ReadFault;
pub use stream::read_to_end;
