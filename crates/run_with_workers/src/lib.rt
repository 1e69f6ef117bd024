//! A run with standing workers: lines are read in order, and their queries are answered beside the one writer by workers
//! that live for the whole run. Each answer is printed in its line's place. What documents go to and queries are answered by is
//! an [`Office`]; `specs/Serving.antt` says how far a run over one has come between two lines.
#![tactic(auto)]

mod index_office;
mod office;
mod program;
mod run;
mod serve;
mod serving;
mod waiting;

pub use office::{Office, Settled};
pub use run::run_workers;
pub use serve::serve_lines;
