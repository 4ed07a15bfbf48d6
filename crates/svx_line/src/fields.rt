ghost use Rattle.std.specs.Prelude.{◌≡◌, map, take, length, min};

use crate::lexer::Lexer;
use crate::part::Part;
use arrayvec::ArrayVec;

/// The fields of a line: the first seven of them, and how many there are.
#[derive(Drop)]
pub struct Fields<'a> {
    pub first: ArrayVec<Part<'a>, 7>,
    pub count: usize,
    ghost held: { length first.items ≡ min count 7 },
}

impl<'a> Fields<'a> {
    ghost use Rattle.svx_line.specs.Spans.{fields};
    ghost use Rattle.svx_line.specs.Parts.{span_of};

    /// The fields of a line.
    pub fn new(line: Part<'a>) -> Fields<'a>
        ensures first { map span_of result.first.items ≡ take 7 (fields (span_of line.entry)) }
        ensures count { result.count ≡ length (fields (span_of line.entry)) }
    {
        let mut first = ArrayVec::new();
        let mut count = 0;
        for field in Lexer::new(line) {
            let _ = first.try_push(field);
            count += 1;
        }
        Fields { first, count }
    }
}
