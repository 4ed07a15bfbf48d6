/// The classes of bytes in a survey text.
#[derive(Clone, Copy, Debug, PartialEq, Eq)]
pub enum ByteClass {
    /// A space, a tab or a carriage return.
    Blank,
    /// It starts a comment.
    Semicolon,
    /// It starts a command.
    Star,
    /// It ends a line.
    LineFeed,
    /// Any other byte stands in a field.
    Other,
}
