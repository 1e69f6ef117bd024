//! A run over parts: documents go to several indexes by their ids, and each query is answered over
//! them all. `specs/Texts.antt` says by which rules.
#![tactic(auto)]

mod parted;
mod run;
mod store;

pub use run::run_parts;
