//! Search: the newest documents that a query matches, among those that are accepted when the search
//! loads their count, over words that may grow between any two loads. `specs/Searched.antt` says
//! what is found.
#![tactic(auto)]

mod counting;
mod known;
mod likely;
mod searching;
mod segment;
mod tallying;
mod visible;
mod walking;

pub use counting::{count_first, count_likely, count_on};
pub use known::search_first;
pub use likely::{search_likely, search_on_likely};
pub use searching::{search, search_on};
