// Where something stands in a text.

/// The place of a character.
#[derive(Clone, Copy, Debug, PartialEq, Eq)]
pub struct Place {
    /// The line, from 1. A line ends with its LF, and with nothing else.
    pub line: u32,
    /// The column, from 1, in characters.
    pub column: u32,
}

/// What stands between two places.
#[derive(Clone, Copy, Debug, PartialEq, Eq)]
pub struct Span {
    /// The place of the first character.
    pub start: Place,
    /// The place after the last character.
    pub end: Place,
}
