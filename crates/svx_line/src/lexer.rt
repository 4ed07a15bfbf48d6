// Tokens and fields of a line.
ghost use Rattle.std.specs.Prelude.{◌≡◌, position};
ghost use Rattle.std.specs.Iterator.{YieldsFirstBy, item_count};
ghost use Rattle.svx_fields.specs.Bytes.{ends_blanks, ends_field};
ghost use Rattle.svx_line.specs.Spans.{fields};
ghost use Rattle.svx_line.specs.Parts.{span_of};
ghost use Rattle.svx_line.specs.Tokens.{sign, sign_of, rest_after};

use crate::part::Part;
use crate::token::Token;
use svx_fields::bytes::ByteClass;
use svx_fields::classify;

// The place of the first byte that is no blank, if there is one.
fn find_field(s: &[u8]) -> Option<usize>
    ensures { result ≡ position ends_blanks s.now }
{
    s.iter().position(|b| classify(*b) != ByteClass::Blank)
}

// The place of the first byte that ends a field, if there is one.
fn find_gap(s: &[u8]) -> Option<usize>
    ensures { result ≡ position ends_field s.now }
{
    s.iter().position(|b| matches!(classify(*b), ByteClass::Blank | ByteClass::Semicolon))
}

/// Reads a line token by token; as an iterator it gives the line's fields.
#[derive(Drop)]
pub struct Lexer<'a> {
    pub rest: Part<'a>,
}

impl<'a> Lexer<'a> {
    pub fn new(line: Part<'a>) -> Lexer<'a>
        ensures { span_of result.rest ≡ span_of line.entry }
    {
        Lexer { rest: line }
    }

    /// The first token of the rest. After it the rest begins where a field or a command ends, and is as it was where none is left.
    #[tactic(auto, using(svx_fields::proofs::Scans::place_or_length))]
    pub fn next_token(&mut self) -> Token<'a>
        ensures token { sign result ≡ sign_of self.old.rest.place self.old.rest.bytes.now }
        ensures rest { span_of self.new.rest ≡ rest_after (sign result) (span_of self.old.rest) }
    {
        let line = self.rest;
        let (_, rest) = line.split_at(find_field(line.bytes).unwrap_or(line.bytes.len()));
        let (word, after) = rest.split_at(find_gap(rest.bytes).unwrap_or(rest.bytes.len()));
        let Some(first) = rest.bytes.first() else {
            return Token::LineEnd;
        };
        match classify(*first) {
            ByteClass::Semicolon => Token::Comment,
            ByteClass::Star => {
                self.rest = after;
                Token::Command(word)
            }
            _ => {
                self.rest = after;
                Token::Field(word)
            }
        }
    }
}

impl<'a> Iterator for Lexer<'a> {
    type Item = Part<'a>;

    ghost next_gives = { YieldsFirstBy span_of (λ s. fields (span_of s.rest)) };

    ghost remaining = { item_count (λ s. fields (span_of s.rest)) };

    fn next(&mut self) -> Option<Part<'a>> {
        self.next_token().part()
    }
}
