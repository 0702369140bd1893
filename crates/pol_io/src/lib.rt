//! Input and output of a program: sources and sinks of bytes, the lines of an input, and clocks.
//!
//! A `Source` gives bytes and a `Sink` takes them; each counts its faults, and contracts may know its bytes. `Lines`
//! cuts what a source gives into lines, in one buffer, and lends each line. `write_all` hands a whole piece to a sink.
//! A `Clock` gives the time.
//!
//! It knows nothing of what a line says. Its main contract is that of `Lines::next_line`: each answer is the first line
//! of the bytes that are ahead, and each fault has its cause. `specs/Pieces.antt` defines what a line is.
//!
//! Tried in `io_examples`.
#![tactic(auto)]

mod clock;
mod drip;
mod fill;
mod limits;
mod lines;
mod memory;
mod memory_clock;
mod outside;
mod seek;
mod sink;
mod source;
mod sure;
mod system_clock;
mod window;

pub use clock::Clock;
pub use drip::{DripSink, DripSource};
pub use limits::{LONGEST_INPUT, LONGEST_LINE};
pub use lines::{IoFault, Line, Lines};
pub use memory::{MemorySink, MemorySource};
pub use memory_clock::MemoryClock;
pub use outside::{ReaderSource, WriterSink};
pub use sink::{Sink, SinkFault, write_all};
pub use source::{Failed, Source};
pub use sure::{SureSink, SureSource};
pub use system_clock::SystemClock;
