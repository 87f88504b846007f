//! Why a text is not a topology.

/// The error in a line.
#[derive(Clone, Copy)]
pub enum TopologyCause {
    /// It has more than 4,096 bytes.
    LineTooLong,
    /// It has no form of its kind of text, or none that is allowed here.
    UnknownLine,
    /// It would come after the last line: no line said what the text is, or a plain text has no `end`.
    NoEnd,
}
