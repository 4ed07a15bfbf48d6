ghost use Rattle.std.specs.Prelude.{◌≡◌, ◌+◌, ◌≤◌};

/// The bends on a leg, to its left and to its right.
#[derive(Clone, Copy, Debug, PartialEq, Eq, Hash)]
pub struct Bends {
    pub left: u16,
    pub right: u16,
}

/// No bends.
pub const STRAIGHT: Bends = Bends { left: 0, right: 0 };

impl Bends {
    /// The bends to both sides.
    pub fn total(self) -> u32
        ensures both { result ≡ self.left + self.right }
        ensures small { result ≤ 131070 }
    {
        u32::from(self.left) + u32::from(self.right)
    }
}
