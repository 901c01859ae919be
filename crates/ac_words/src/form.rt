//! The forms in which rows are written.

/// A form in which rows are written.
#[derive(Clone, Copy, Debug, PartialEq, Eq)]
pub enum Form {
    /// Comma-separated values, with a header.
    Csv,
    /// A table drawn with lines, for a terminal.
    Table,
    /// A JSON list of objects, one for each row.
    Json,
}
