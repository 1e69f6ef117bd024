/// A point that a writer or a reader of an index reaches.
#[derive(Clone, Copy, Debug, PartialEq, Eq)]
pub enum Point {
    /// A search loaded the count of accepted documents, and found this number.
    CountLoaded(u64),
    /// A document was accepted, and this many are accepted now.
    Added(u64),
}

/// An observer that a writer or a reader calls at points of its work, on its own thread.
///
/// A gate changes nothing that a contract sees: no answer depends on it. Tests use it to hold a
/// writer or a reader at a point.
pub trait Gate {
    /// The point is reached. The caller goes on when this call returns.
    fn reached(&self, point: Point);
}

/// The gate that does nothing.
#[derive(Clone, Copy, Debug, PartialEq, Eq)]
pub struct OpenGate;

impl Gate for OpenGate {
    fn reached(&self, _point: Point) {}
}
