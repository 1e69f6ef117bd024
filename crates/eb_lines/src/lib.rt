//! The line protocol: what a line of the input is read as, what a line prints, how far a run is
//! after some lines, and how a program over lines ends. The forms are those of this project's
//! profile, docs/FORMATS.md.
#![tactic(auto)]

mod form;
mod gathered;
mod kind;
mod laws;
mod objects;
mod passing;
mod pieces;
mod program;
mod refusal;
mod status;
mod words;
mod work;
mod writing;

pub use form::{Form, Tail};
pub use gathered::{write_gathered, write_much};
pub use kind::{LineKind, line_kind, plain_kind};
pub use laws::lines_in_plain;
pub use passing::pass_lines;
pub use program::LineProgram;
pub use refusal::Refusal;
pub use status::{MAX_INPUT, Status};
pub use work::{
    Work, query_refusal, read_document_line, read_document_line_by, read_line, read_query_text,
};
pub use writing::{line_room, put_answer, put_count, put_refusal, put_summary, put_watches};
