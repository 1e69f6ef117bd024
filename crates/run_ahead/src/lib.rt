//! A run over the lines of an input whose lines wait a little: they are read concurrently, and
//! their documents are added to a store many at once.
#![tactic(auto)]

mod adding;
mod ahead;
mod each;
mod lines;
mod program;
mod reading;
mod run;

pub use each::place_each;
pub use reading::{Other, Question};
pub use run::answer_lines_ahead;
