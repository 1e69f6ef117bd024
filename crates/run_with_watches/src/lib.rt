//! A run with watches: lines also set and remove watches, and for each document the watches that it
//! matches are printed. [`answer_watched`] has them over any store, and [`run_watches`] over an
//! index. `specs/WatchRules.antt` says by which rules.
#![tactic(auto)]

mod other;
mod run;
mod watched;

pub use run::{answer_watched, run_watches};
