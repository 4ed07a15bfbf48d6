// Turning a plan: the same legs with another outer side.
ghost use Rattle.std.specs.Prelude.{◌≡◌, length};
ghost use Rattle.embedding.specs.Plans.{side_answer};
ghost use Rattle.plan.specs.States.{plan_legs, told_turn, Turns};

use crate::plans::Plan;
use embedding::outer::OuterSide;
use plan_check::check_side;
use refusal::Refusal;

/// A plan that could not be turned, handed back as it was, and why.
#[derive(Drop)]
pub struct Turned {
    pub plan: Plan,
    pub refusal: Refusal,
}

/// Takes a plan away, and gives back one of the same legs with the outer side asked for.
pub fn turn(plan: Plan, outer: OuterSide) -> Result<Plan, Turned>
    ensures answer { told_turn result ≡ side_answer (length (plan_legs plan)) outer.leg outer.side }
    ensures state { Turns plan outer.leg outer.side result }
{
    match check_side(plan.count(), outer) {
        Ok(()) => Ok(Plan {
            legs: plan.legs,
            outer,
        }),
        Err(refusal) => Err(Turned { plan, refusal }),
    }
}
