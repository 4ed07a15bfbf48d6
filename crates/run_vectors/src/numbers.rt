// Whole numbers parted by anything else, read one after another.
ghost use Rattle.std.specs.Prelude.{◌≡◌, position};
ghost use Rattle.std.specs.Char.{is_ascii_digit};
ghost use Rattle.run_vectors.specs.Text.{no_digit, number, first_number, after_digits};

/// What is left of a text of whole numbers.
#[derive(Drop)]
pub struct Numbers<'a> {
    left: &'a [u8],
}

// The place of the first digit, if there is one.
fn find_digit(s: &[u8]) -> Option<usize>
    ensures { result ≡ position is_ascii_digit s.now }
{
    s.iter().position(|b| b.is_ascii_digit())
}

// The place of the first byte that is no digit, if there is one.
fn find_gap(s: &[u8]) -> Option<usize>
    ensures { result ≡ position no_digit s.now }
{
    s.iter().position(|b| !b.is_ascii_digit())
}

// The number that digits make, modulo 2^32.
fn value(digits: &[u8]) -> u32
    ensures { result ≡ number digits.now }
{
    digits.iter().fold(0u32, |n, b| {
        n.wrapping_mul(10)
            .wrapping_add(u32::from(b.saturating_sub(b'0')))
    })
}

impl<'a> Numbers<'a> {
    pub(crate) fn new(text: &'a [u8]) -> Numbers<'a>
        ensures { result.left.now ≡ text.now }
    {
        Numbers { left: text }
    }

    /// The next number, 0 past the last one; digits that no other byte follows make none.
    #[tactic(auto, using(crate::proofs::Places::place_or_length))]
    pub(crate) fn next(&mut self) -> u32
        ensures number { result ≡ first_number self.old.left.now }
        ensures left { self.new.left.now ≡ after_digits self.old.left.now }
    {
        let text = self.left;
        let (_, from_digit) = text.split_at(find_digit(text).unwrap_or(text.len()));
        let (digits, rest) = from_digit.split_at(find_gap(from_digit).unwrap_or(from_digit.len()));
        self.left = rest;
        if rest.is_empty() { 0 } else { value(digits) }
    }
}
