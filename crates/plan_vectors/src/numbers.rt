// Whole numbers parted by anything else, read one after another.
ghost use Rattle.std.specs.Prelude.{◌≡◌, min, position};
ghost use Rattle.std.specs.Char.{is_ascii_digit};
ghost use Rattle.plan_vectors.specs.Text.{no_digit, number, first_number, after_digits};

/// What is left of a text of whole numbers.
#[derive(Drop)]
pub struct Numbers<'a> {
    left: &'a [u8],
}

// The place of the first digit, if there is one.
fn find_digit(s: &[u8]) -> Option<usize>
    ensures { result ≡ position is_ascii_digit s.now }
{
    s.iter().position(|b| b.is_ascii_digit())
}

// The place of the first byte that is no digit, if there is one.
fn find_gap(s: &[u8]) -> Option<usize>
    ensures { result ≡ position no_digit s.now }
{
    s.iter().position(|b| !b.is_ascii_digit())
}

// The number that digits make, the highest `usize` where it is higher.
fn value(digits: &[u8]) -> usize
    ensures { result ≡ number digits.now }
{
    digits.iter().fold(0usize, |n, b| {
        n.saturating_mul(10)
            .saturating_add(usize::from(b.saturating_sub(b'0')))
    })
}

impl<'a> Numbers<'a> {
    pub(crate) fn new(text: &'a [u8]) -> Numbers<'a>
        ensures { result.left.now ≡ text.now }
    {
        Numbers { left: text }
    }

    /// The next number, 0 past the last one.
    #[tactic(auto, using(crate::proofs::Places::place_or_length))]
    pub(crate) fn next(&mut self) -> usize
        ensures number { result ≡ first_number self.old.left.now }
        ensures left { self.new.left.now ≡ after_digits self.old.left.now }
    {
        let text = self.left;
        if text.is_empty() {
            return 0;
        }
        let (_, from_digit) = text.split_at(find_digit(text).unwrap_or(text.len()));
        let (digits, rest) = from_digit.split_at(find_gap(from_digit).unwrap_or(from_digit.len()));
        self.left = rest;
        value(digits)
    }

    /// The next number where it is below 65,536, else 65,535.
    pub(crate) fn next_small(&mut self) -> u32
        ensures number { result ≡ min (first_number self.old.left.now) 65535 }
        ensures left { self.new.left.now ≡ after_digits self.old.left.now }
    {
        self.next().min(65535) as u32
    }
}
