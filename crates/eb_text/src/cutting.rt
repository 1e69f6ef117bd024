//! How texts are cut.

/// How a text is cut into tokens.
#[derive(Clone, Copy, Debug, PartialEq, Eq)]
pub enum Cut {
    /// Each word is a token.
    Words,
    /// Each run between the marks of a word is a token. A mark is a character of ASCII that is
    /// neither a letter nor a digit.
    Pieces,
}
