// The survey table: at most 256 legs in a fixed table.
#![tactic(auto)]

ghost use Rattle.std.specs.Prelude.{◌≡◌, ◌≤◌, true, [], length, nat_lt};
ghost use Rattle.table.specs.Tables.{table_legs};

mod survey_table;

use leg_slice;
use refusal::Refusal;
use survey::leg::{Attributes, Leg};
use survey::{Survey, checks};
pub use survey_table::SurveyTable;

/// The most legs that a table holds.
const CAPACITY: usize = 256;

impl SurveyTable {
    /// An empty table.
    pub fn new() -> SurveyTable
        ensures { table_legs result ≡ [] }
    {
        SurveyTable {
            legs: [Leg::default(); CAPACITY],
            count: 0,
        }
    }

    /// The legs in use.
    pub fn as_slice(&self) -> &[Leg]
        ensures legs { result.now ≡ table_legs self.now }
        ensures few { length result.now ≤ 256 }
    {
        &self.legs[0..self.count]
    }
}

impl Survey for SurveyTable {
    ghost legs = { table_legs };

    ghost enters = { λ t. nat_lt (length (table_legs t)) 256 };

    ghost amends = { λ t. true };

    ghost valid = { λ t. t.valid };

    ghost leads = { λ s cs t. Unit {0} };

    ghost leading = { record { stays = λ s. tt; onward = λ s t u cs ds p q. tt } };

    fn count(&self) -> usize {
        self.as_slice().len()
    }

    /// A leg may be entered while there are fewer than 256.
    fn may_enter(&self) -> bool {
        self.count < CAPACITY
    }

    /// A table may always be amended.
    fn may_amend(&self) -> bool {
        true
    }

    fn leg(&self, i: usize) -> Result<Leg, Refusal> {
        checks::query_leg(self.as_slice(), i)
    }

    fn enter(&mut self, leg: Leg) -> Result<(), Refusal> {
        let legs = self.as_slice();
        checks::check_enter(legs, legs.len() < CAPACITY, &leg)?;
        self.legs[self.count] = leg;
        self.count += 1;
        Ok(())
    }

    fn strike(&mut self, start: usize, end: usize) -> Result<(), Refusal> {
        checks::check_strike(self.count, true, start, end)?;
        leg_slice::strike(&mut self.legs, self.count, start, end);
        self.count -= end - start;
        Ok(())
    }

    fn amend(&mut self, start: usize, end: usize, attributes: Attributes) -> Result<(), Refusal> {
        checks::check_amend(self.count, true, start, end, attributes)?;
        leg_slice::amend(&mut self.legs, start, end, attributes);
        Ok(())
    }
}
