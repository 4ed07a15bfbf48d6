// How much a vector holds, and how much it could.
ghost use Rattle.std.specs.Prelude.{◌≡◌, length};

use super::SliceVec;

impl<'a, T: Copy> SliceVec<'a, T> {
    /// The count in use.
    pub fn len(&self) -> usize
        ensures { result ≡ self.now.used }
    {
        self.used
    }

    /// The places supplied, in use or not.
    pub fn capacity(&self) -> usize
        ensures { result ≡ length self.now.places.now }
    {
        self.places.len()
    }
}
