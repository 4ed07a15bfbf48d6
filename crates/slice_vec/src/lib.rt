// A vector of fixed capacity over a lent slice, written once for every kind of record.
#![tactic(auto)]

ghost use Rattle.std.specs.Prelude.{◌≡◌, ◌≤◌, length, take};
ghost use Rattle.refusal.specs.Answers.{told};
ghost use Rattle.slice_vec.specs.Places.{item_read, append_answer, append_used, append_places, at_answer, at_item, replace_places};

use refusal::Refusal;

mod size;

/// A lent slice of places, of which the first `used` are in use: by a rule of the project it allocates nothing.
#[derive(Drop)]
pub struct SliceVec<'a, T> {
    places: &'a mut [T],
    used: usize,
    ghost within: { used ≤ length places.now },
}

impl<'a, T: Copy> SliceVec<'a, T> {
    /// A vector over these places, none of them in use. What they hold stays.
    pub fn new(places: &'a mut [T]) -> SliceVec<'a, T>
        ensures used { result.used ≡ 0 }
        ensures places { result.places.now ≡ places.old }
        ensures lender { result.places.ghost_name ≡ places.entry.ghost_name }
    {
        SliceVec { places, used: 0 }
    }

    /// Puts a record at the first place that is not in use.
    pub fn append(&mut self, item: T) -> Result<(), Refusal>
        ensures answer { told result ≡ append_answer self.old.used (length self.old.places.now) }
        ensures used { self.new.used ≡ append_used self.old.used (length self.old.places.now) }
        ensures places { self.new.places.now ≡ append_places self.old.places.now self.old.used item }
        ensures lender { self.new.places.ghost_name ≡ self.old.places.ghost_name }
    {
        if self.used >= self.places.len() {
            return Err(Refusal::VectorFull(self.used));
        }
        self.places[self.used] = item;
        self.used += 1;
        Ok(())
    }

    /// The record at an index that is in use.
    pub fn read(&self, i: usize) -> Result<T, Refusal>
        ensures answer { told result ≡ at_answer self.now.used (length self.now.places.now) i }
        ensures item { item_read result ≡ at_item self.now.places.now self.now.used i }
    {
        self.as_slice()
            .get(i)
            .copied()
            .ok_or(Refusal::PastCount(self.used))
    }

    /// Puts a record in the place of the one at an index that is in use.
    pub fn replace(&mut self, i: usize, item: T) -> Result<(), Refusal>
        ensures answer { told result ≡ at_answer self.old.used (length self.old.places.now) i }
        ensures used { self.new.used ≡ self.old.used }
        ensures places { self.new.places.now ≡ replace_places self.old.places.now self.old.used i item }
        ensures lender { self.new.places.ghost_name ≡ self.old.places.ghost_name }
    {
        if i >= self.used {
            return Err(Refusal::PastCount(self.used));
        }
        self.places[i] = item;
        Ok(())
    }

    /// The records in use.
    pub fn as_slice(&self) -> &[T]
        ensures { result.now ≡ take self.now.used self.now.places.now }
    {
        &self.places[..self.used]
    }
}
