//! Query lines: `?`, how many matches are wanted, and a query of words, phrases, windows, bounds on
//! ids, `OR`, `-` and parentheses. And watch lines: `!`, the number of a watch, and the query that
//! it is set to, or nothing where it is removed (this project's profile, docs/FORMATS.md).
//! [`read_query`] reads a query line, [`write_query`] writes one, and [`read_watch`] reads a watch
//! line. The rules in `specs/` say what a line asks, and where and why another is refused.
//! [`read_ask`] reads a line by a [`Dialect`](eb_fields::Dialect), and a count line besides: `#`,
//! the buckets that are wanted, if any, and a query. With fields, [`read_query_with`] and
//! [`read_watch_with`] read the same lines, where a field's name and value ask for the documents
//! that have them. The laws [`some_reading`], [`one_reading`], [`some_watch_reading`],
//! [`one_watch_reading`] and [`reads_back`] say that each line has a reading, and one alone, and
//! that what is written reads back. [`in_plain`] says that without fields nothing of them is read,
//! and [`fields_apart`] that a field's term is in no phrase or window.
#![tactic(auto)]

mod ask;
mod digits;
mod head;
mod laws;
mod lexeme;
mod number;
mod operands;
mod quoted;
mod read;
mod reader;
mod value;
mod watch;
mod write;

pub use ask::Ask;
pub use head::{MAX_BUCKETS, begins_query};
pub use laws::{
    fields_apart, in_plain, newest_alone, one_reading, one_watch_reading, reads_back, some_reading,
    some_watch_reading,
};
pub use number::MAX_NUMBER;
pub use read::{QueryFault, read_ask, read_query, read_query_with};
pub use reader::MAX_NESTING;
pub use watch::{read_watch, read_watch_with};
pub use write::write_query;
