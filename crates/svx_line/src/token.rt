ghost use Rattle.std.specs.Prelude.{◌≡◌, option_map};
ghost use Rattle.svx_line.specs.Parts.{span_of};

use crate::part::Part;

/// A token of a line, borrowed from the text.
#[derive(Clone, Copy, Debug, PartialEq, Eq)]
pub enum Token<'a> {
    Field(Part<'a>),
    /// A field that starts with a star.
    Command(Part<'a>),
    /// The rest of the line is a comment.
    Comment,
    /// The line has no more.
    LineEnd,
}

impl<'a> Token<'a> {
    ghost use Rattle.svx_line.specs.Tokens.{sign, span_found};

    /// The field or the command, if the token is one.
    pub fn part(self) -> Option<Part<'a>>
        ensures { option_map span_of result ≡ span_found (sign self.entry) }
    {
        match self {
            Token::Field(part) | Token::Command(part) => Some(part),
            Token::Comment | Token::LineEnd => None,
        }
    }
}
