//! Input and output of Earlybird: where bytes come from, where bytes go, and the lines of the bytes
//! that come. `specs/Lines.antt` says what the lines of a text are.
#![tactic(auto)]

mod count_sink;
mod front;
mod lines;
mod mem_sink;
mod mem_source;
mod sink;
mod source;
mod standard;
mod sure_source;
mod write;

pub use count_sink::CountSink;
pub use lines::{LONGEST_LINE, Lines, Next};
pub use mem_sink::MemSink;
pub use mem_source::MemSource;
pub use sink::{Sink, SinkFailed};
pub use source::{Got, Source};
pub use standard::{StdSink, StdSource};
pub use sure_source::SureSource;
pub use write::write_all;
