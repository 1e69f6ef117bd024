//! Rounds of lines: lines are read concurrently, and documents are added while queries are
//! answered.
//!
//! [`Rounds`] holds lines until they are processed, round after round. `WorkedOff`
//! (`specs/Shown.antt`) says what a query of a round may see, and what the lines print; `Sees` of
//! `run_index` says which prefixes the queries of a whole input may see.
#![tactic(auto)]

mod adding;
mod answering;
mod held;
mod input;
mod reading;
mod rounds;
mod setup;
mod tasks;
mod working;

pub use eb_lines::Refusal;
pub use input::{Input, Kind};
pub use rounds::Rounds;
pub use run_index::Counts;
pub use setup::Setup;
