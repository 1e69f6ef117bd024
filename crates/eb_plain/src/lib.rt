//! The definitions as plain, slow programs. Each body walks lists and has a definition as its whole
//! contract: what the answer is, which document fits and how a history is cut. Tests compare the
//! index with them.
#![tactic(auto)]

mod answers;
mod history;
mod room;

pub use answers::newest;
pub use history::{cut, has_room};
pub use room::fits;
