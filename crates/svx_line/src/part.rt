ghost use Rattle.std.specs.Prelude.{◌≡◌, ◌+◌, ◌-◌, ◌^◌, ◌<◌, ◌≤◌, [], length, take, drop};

/// A part of the text: its bytes, and the place of the first of them.
#[derive(Clone, Copy, Debug, PartialEq, Eq)]
pub struct Part<'a> {
    pub bytes: &'a [u8],
    pub place: usize,
    ghost fits: { place + length bytes.now < 2 ^ 64 },
}

impl<'a> Part<'a> {
    /// The first `n` bytes, and the others.
    pub fn split_at(self, n: usize) -> (Part<'a>, Part<'a>)
        requires { n ≤ length self.bytes.now }
        ensures front { result.0.bytes.now ≡ take n self.entry.bytes.now }
        ensures front_place { result.0.place ≡ self.entry.place }
        ensures back { result.1.bytes.now ≡ drop n self.entry.bytes.now }
        ensures back_place { result.1.place ≡ self.entry.place + n }
    {
        let (front, back) = self.bytes.split_at(n);
        let place = self.place;
        (
            Part {
                bytes: front,
                place,
            },
            Part {
                bytes: back,
                place: place + n,
            },
        )
    }
}

/// No bytes, at the text's start.
impl<'a> Default for Part<'a> {
    ghost is_default = { λ p. (p.bytes.now ≡ []) × (p.place ≡ 0) };

    fn default() -> Self {
        Part {
            bytes: &[],
            place: 0,
        }
    }
}
