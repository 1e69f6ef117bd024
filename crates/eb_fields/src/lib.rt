//! Fields of documents, by which a query asks for who wrote a message, or in which room: the list
//! of their names, and the term that a name and a value make. [`Fields`] holds the names, and
//! [`Fields::read`] checks them by their grammar; [`field_term`] makes a term. The laws
//! [`is_no_token`] and [`names_apart`] say that no token of a text is such a term, and that terms
//! with different names or values differ. [`Dialect`] is how lines are read, and [`read_id`] reads
//! an id as a text.
#![tactic(auto)]

mod dialect;
mod digits;
mod fields;
mod ids;
mod laws;
mod names;
mod term;

pub use dialect::Dialect;
pub use digits::digits_at;
pub use fields::Fields;
pub use ids::read_id;
pub use laws::{is_no_token, names_apart};
pub use names::{MAX_NAME_BYTES, MAX_NAMES};
pub use term::{MAX_VALUE_BYTES, field_term};
