//! Standing queries: a watch is a query with a number, and for each document that is added the
//! watches that it matches are found. A document is tested against few of them: those without a
//! key, and those with one of its terms in their key.
#![tactic(auto)]

mod add;
mod candidates;
mod ends;
mod faults;
mod index;
mod key;
mod laws;
mod matching;
mod message;
mod unmetered;
mod watch;
mod watches;

pub use faults::{NoWatch, SetFault, WatchFault};
pub use laws::a_match_has_a_key_term;
pub use matching::matches;
pub use watches::{MAX_WATCHES, Watches};
