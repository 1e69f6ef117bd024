//! The index for programs in C, and in each language that calls C: one in memory that the caller
//! lends, one that threads share, behind handles (`sharing`), and a feed that they share and that
//! never ends (`streaming`). `include/earlybird.h` declares the calls, and says of each what its
//! caller owes.
//!
//! Of an index that is lent the caller keeps all memory: its words, and a struct of numbers. A call
//! tests what it can: whether the numbers are those of an index that was begun, and whether there
//! are as many words as its setting needs. What it can't test is its `requires`: that such numbers
//! and words are as the last call left them. Then they are an index that has accepted some
//! documents (`Holds` of `specs/`), and the clauses say what the call answers and leaves, for the
//! documents of any such index.
#![tactic(auto)]

mod adding;
mod adding_many;
mod asking;
mod counting;
mod counts;
mod dialects;
mod exports;
mod handle;
mod held;
mod images;
mod index;
mod leading;
mod lent_with;
mod parsed;
mod parts;
mod reading;
mod refusal;
mod sealed;
mod sharing;
mod sharing_with;
mod streaming;
mod streaming_with;
mod told;
mod watching;

pub use adding_many::{Text, eb_leader_add_texts_with, eb_writer_add_texts_with};
pub use counting::Count;
pub use counts::{eb_count_text, eb_follower_count_text, eb_reader_count_text};
pub use dialects::Reading;
pub use exports::{
    eb_add_line, eb_add_text, eb_ask_line, eb_ask_text, eb_begin, eb_documents, eb_last_segment,
    eb_segments, eb_words,
};
pub use handle::Handle;
pub use held::{Held, HeldConverter, HeldReader, HeldWriter};
pub use images::{
    eb_add_part, eb_image_head, eb_image_setting, eb_part_of_line, eb_part_of_text,
    eb_writer_add_part,
};
pub use index::{Answer, Index, Segment};
pub use leading::{HeldFollower, HeldLeader};
pub use lent_with::{
    eb_add_line_with, eb_add_text_with, eb_ask_line_with, eb_ask_text_with, eb_check_reading,
    eb_count_text_with,
};
pub use refusal::Refusal;
pub use sealed::Sealed;
pub use sharing::{
    eb_close, eb_converter_convert, eb_open, eb_reader, eb_reader_ask_line, eb_reader_ask_text,
    eb_reader_seen, eb_writer_add_line, eb_writer_add_text,
};
pub use sharing_with::{
    eb_reader_ask_line_with, eb_reader_ask_text_with, eb_reader_count_text_with,
    eb_writer_add_line_with, eb_writer_add_text_with,
};
pub use streaming::{
    eb_follower, eb_follower_ask_line, eb_follower_ask_text, eb_follower_held, eb_follower_seen,
    eb_leader_add_line, eb_leader_add_text, eb_leader_converter, eb_leader_lend,
    eb_leader_released, eb_leader_tell, eb_spare_open, eb_stream_open,
};
pub use streaming_with::{
    eb_follower_ask_line_with, eb_follower_ask_text_with, eb_follower_count_text_with,
    eb_leader_add_line_with, eb_leader_add_text_with,
};
pub use told::Told;
pub use watching::{
    eb_watch_remove, eb_watch_set, eb_watches, eb_watches_tell_line, eb_watches_tell_text,
};
