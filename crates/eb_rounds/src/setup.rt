use eb_base::Gate;
use eb_engine::Index;
use eb_fields::Dialect;
use eb_lines::Form;

/// What the lines of a round are processed with.
#[derive(Drop)]
pub struct Setup<'a, G: Gate> {
    /// The index that documents are added to and queries ask.
    pub index: &'a Index,
    /// What observes its calls.
    pub gate: &'a G,
    /// How lines are read.
    pub dialect: Dialect<'a>,
    /// How what is printed is written.
    pub form: Form,
}
