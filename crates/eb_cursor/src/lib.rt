//! Query cursors: a frame takes all memory that a search needs, once, and then finds in one segment
//! the greatest document at or below a number that its query matches, over words that may grow
//! between any two loads. `specs/` says what a frame is seen as, and what it finds.
#![tactic(auto)]

mod begin;
mod below;
mod bound;
mod cursor;
mod frame;
mod likely;
mod pair;
mod phrase;
mod posting_list;
mod rarest;
mod run;
mod size;
mod window;

pub use frame::Frame;
