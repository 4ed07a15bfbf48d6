// The survey journal: accepted changes in lent entries, played again for each call.
#![tactic(auto)]

ghost use Rattle.std.specs.Prelude.{◌≡◌, true, [], ◌∷◌, length};
ghost use Rattle.survey.specs.Model.{valid_legs};
ghost use Rattle.replay.specs.Replay.{changed};
ghost use Rattle.replay.specs.Entries.{free_entry};
ghost use Rattle.journal.specs.Journals.{held_entries, taken_entries, journal_changes, journal_legs, has_free_entry, Wrote};
ghost use Rattle.journal.specs.Writing.{writing};

mod survey_journal;

use refusal::Refusal;
use replay;
use slice_vec::SliceVec;
use survey::leg::{Attributes, Change, Leg};
use survey::{Survey, checks};
pub use survey_journal::SurveyJournal;

/// The most entries that a journal uses, however many are supplied.
const MOST_ENTRIES: usize = 4096;

impl<'a> SurveyJournal<'a> {
    /// An empty journal over these entries, all of them free. What they hold stays until it is written over.
    pub fn new(entries: &'a mut [Change]) -> SurveyJournal<'a>
        ensures list { journal_legs result ≡ [] }
        ensures free { has_free_entry result ≡ free_entry 0 (length entries.old) }
        ensures taken { taken_entries result ≡ 0 }
        ensures held { held_entries result ≡ entries.old }
        ensures lender { result.entries.places.ghost_name ≡ entries.entry.ghost_name }
    {
        SurveyJournal {
            entries: SliceVec::new(entries),
        }
    }

    /// The accepted changes, in order.
    pub fn changes(&self) -> &[Change]
        ensures { result.now ≡ journal_changes self.now }
    {
        self.entries.as_slice()
    }

    // Whether an entry is free.
    fn is_free(&self) -> bool
        ensures { result ≡ has_free_entry self.now }
    {
        self.entries.len() < self.entries.capacity().min(MOST_ENTRIES)
    }

    // The legs that the changes make, played into the front of these places.
    fn play<'l>(&self, legs: &'l mut [Leg; MOST_ENTRIES]) -> &'l [Leg]
        ensures { result.now ≡ journal_legs self.now }
    {
        let count = replay::replay(self.changes(), legs);
        &legs[0..count]
    }

    // How many legs there are.
    fn count_legs(&self) -> usize
        ensures { result ≡ length (journal_legs self.now) }
    {
        let mut legs = [Leg::default(); MOST_ENTRIES];
        self.play(&mut legs).len()
    }

    // Writes an accepted change into the first free entry.
    fn write(&mut self, change: Change)
        requires { (has_free_entry self.old ≡ true) × (valid_legs (changed (journal_legs self.old) change) ≡ true) }
        ensures list { journal_legs self.new ≡ changed (journal_legs self.old) change }
        ensures wrote { Wrote self.old (change ∷ []) self.new }
    {
        let _ = self.entries.append(change);
    }
}

impl<'a> Survey for SurveyJournal<'a> {
    ghost legs = { journal_legs };

    ghost enters = { has_free_entry };

    ghost amends = { has_free_entry };

    ghost valid = { λ j. j.valid };

    ghost leads = { Wrote };

    ghost leading = { writing };

    fn count(&self) -> usize {
        self.count_legs()
    }

    /// A leg may be entered while an entry is free.
    fn may_enter(&self) -> bool {
        self.is_free()
    }

    /// Legs may be struck and amended while a leg may be entered.
    fn may_amend(&self) -> bool {
        self.may_enter()
    }

    fn leg(&self, i: usize) -> Result<Leg, Refusal> {
        let mut legs = [Leg::default(); MOST_ENTRIES];
        checks::query_leg(self.play(&mut legs), i)
    }

    fn enter(&mut self, leg: Leg) -> Result<(), Refusal> {
        let mut legs = [Leg::default(); MOST_ENTRIES];
        checks::check_enter(self.play(&mut legs), self.is_free(), &leg)?;
        self.write(Change::Enter(leg));
        Ok(())
    }

    fn strike(&mut self, start: usize, end: usize) -> Result<(), Refusal> {
        checks::check_strike(self.count_legs(), self.is_free(), start, end)?;
        self.write(Change::Strike { start, end });
        Ok(())
    }

    fn amend(&mut self, start: usize, end: usize, attributes: Attributes) -> Result<(), Refusal> {
        checks::check_amend(self.count_legs(), self.is_free(), start, end, attributes)?;
        self.write(Change::Amend {
            start,
            end,
            attributes,
        });
        Ok(())
    }
}
