use eb_base::Config;
use eb_fields::Dialect;
use eb_lines::Form;

/// How a run goes over its lines, which costs nothing to copy.
#[derive(Clone, Copy, Debug)]
pub struct Plan<'a> {
    /// How lines are read.
    pub dialect: Dialect<'a>,
    /// How what is printed is written, and whether the segments are printed after the summary.
    pub form: Form,
    /// The setting of the index, or of each of them.
    pub config: Config,
}
