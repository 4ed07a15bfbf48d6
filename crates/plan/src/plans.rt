ghost use Rattle.std.specs.Prelude.{◌≡◌, true};
ghost use Rattle.survey.specs.Model.{valid_legs, is_accepted};
ghost use Rattle.embedding.specs.Plans.{plan_answer};

use arrayvec::ArrayVec;
use embedding::outer::OuterSide;
use survey::leg::Leg;

/// A list of 1 to 256 legs that a survey can hold, connected, bimodal and planar, with an outer side.
/// It can be neither copied nor cloned: who draws it or turns it uses it up.
#[derive(Drop)]
pub struct Plan {
    pub(crate) legs: ArrayVec<Leg, 256>,
    pub(crate) outer: OuterSide,
    ghost valid: { valid_legs legs.items ≡ true },
    ghost accepted: { is_accepted (plan_answer legs.items outer.leg outer.side) ≡ true },
}
