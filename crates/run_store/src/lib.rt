//! A run over the lines of an input that adds documents to a store and answers queries by it, one
//! line after the other.
#![tactic(auto)]

mod answering;
mod laws;
mod plan;
mod question;
mod run;
mod store;

pub use answering::Answering;
pub use laws::{one_text, order_text, some_text};
pub use plan::Plan;
pub use question::read_question;
pub use run::answer_lines;
pub use store::Store;
