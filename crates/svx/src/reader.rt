ghost use Rattle.std.specs.Prelude.{◌≡◌, ◌≤◌, position};
ghost use Rattle.svx_fields.specs.Bytes.{ends_line};

use svx_fields::bytes::ByteClass;
use svx_fields::classify;
use svx_line::part::Part;

// The place of the first line feed, if there is one.
fn find_line_feed(s: &[u8]) -> Option<usize>
    ensures { result ≡ position ends_line s.now }
{
    s.iter().position(|b| classify(*b) == ByteClass::LineFeed)
}

/// Reads a lent text line by line: the place of the next line, and the number of the line read last.
#[derive(Clone, Copy, Debug)]
pub(crate) struct Reader<'a> {
    pub(crate) text: &'a [u8],
    pub(crate) place: usize,
    pub(crate) line: usize,
    ghost counted: { line ≤ place },
}

impl<'a> Reader<'a> {
    ghost use Rattle.std.specs.Prelude.{◌+◌, ◌<◌, length};
    ghost use Rattle.svx.specs.Lines.{lines_left, with_line, lines_given, Within};

    /// A reader at the start of the text.
    pub(crate) fn new(text: &'a [u8]) -> Reader<'a>
        ensures text { result.text.now ≡ text.now }
        ensures place { result.place ≡ 0 }
        ensures line { result.line ≡ 0 }
    {
        Reader {
            text,
            place: 0,
            line: 0,
        }
    }

    /// The next line, a part of the text.
    #[tactic(auto, using(svx_fields::proofs::Scans::place_or_length, crate::proofs::Lefts::left_cut))]
    pub(crate) fn next_line(&mut self) -> Option<Part<'a>>
        ensures text { self.new.text.now ≡ self.old.text.now }
        ensures lines { lines_left self.old.place self.old.text.now ≡ with_line result (lines_left self.new.place self.old.text.now) }
        ensures line { self.new.line ≡ self.old.line + lines_given result }
        ensures within { Within result (length self.old.text.now) }
        ensures last { lines_given result ≡ 0 → length self.old.text.now < self.old.place }
        ensures onward { self.old.place + lines_given result ≤ self.new.place }
    {
        let place = self.place;
        let rest = self.text.get(place..)?;
        let length = find_line_feed(rest).unwrap_or(rest.len());
        self.place = place + length + 1;
        self.line += 1;
        Some(Part {
            bytes: &rest[..length],
            place,
        })
    }
}
