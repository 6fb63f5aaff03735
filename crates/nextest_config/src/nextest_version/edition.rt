//! What a configuration may be written in.

/// Which forms of the setting `experimental` are taken.
#[derive(Clone, Copy, Debug, PartialEq, Eq)]
pub enum Edition {
    /// An array of names, which is deprecated, or a table.
    ArrayAllowed,
    /// A table alone.
    TableOnly,
}
