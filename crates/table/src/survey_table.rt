ghost use Rattle.std.specs.Prelude.{◌≡◌, ◌≤◌, true, length, take};
ghost use Rattle.survey.specs.Model.{valid_legs};

use survey::leg::Leg;

/// A survey kept as a table of at most 256 legs, of which the first `count` are in use.
#[derive(Drop)]
pub struct SurveyTable {
    pub(crate) legs: [Leg; 256],
    pub(crate) count: usize,
    ghost full: { length legs ≡ 256 },
    ghost small: { count ≤ 256 },
    ghost valid: { valid_legs (take count legs) ≡ true },
}
