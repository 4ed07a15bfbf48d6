// Planning: a survey read into a supplied plan.
ghost use Rattle.std.specs.Prelude.{◌≡◌, ◌≤◌, length, ◌≢◌, IfOk};
ghost use Rattle.refusal.specs.Answers.{told, accepted};
ghost use Rattle.embedding.specs.Plans.{request_answer, plan_answer};
ghost use Rattle.plan.specs.States.{plan_state, planned_state, state};

use crate::plans::Plan;
use arrayvec::ArrayVec;
use embedding::cave::Cave;
use embedding::outer::OuterSide;
use plan_check::{check_embedding, check_request};
use refusal::Refusal;
use survey::Survey;
use survey::leg::Leg;

// The legs of a survey, so many, in a list of their own.
fn read_legs<S: Survey>(survey: &S, count: usize) -> ArrayVec<Leg, 256>
    requires all { count ≡ length (S.legs survey.now) }
    requires few { count ≤ 256 }
    ensures { result.items ≡ S.legs survey.now }
{
    let mut legs = ArrayVec::new();
    // A survey tells its legs by number.
    for i in 0..count {
        if let Ok(leg) = survey.leg(i) {
            legs.push(leg);
        }
    }
    legs
}

// The plan of a survey's legs, where its embedding is accepted.
fn plan_legs<S: Survey>(survey: &S, count: usize, outer: OuterSide) -> Result<Plan, Refusal>
    requires all { count ≡ length (S.legs survey.now) }
    requires request { accepted ≡ request_answer count outer.leg outer.side }
    ensures answer { told result ≡ plan_answer (S.legs survey.now) outer.leg outer.side }
    ensures state { IfOk result (λ p. plan_state p ≡ state (S.legs survey.now) outer.leg outer.side) }
{
    let legs = read_legs(survey, count);
    check_embedding(&Cave {
        legs: legs.as_slice(),
    })?;
    Ok(Plan { legs, outer })
}

/// Reads a survey into a plan with the outer side asked for. A refusal leaves the plan as it was.
pub fn plan<S: Survey>(survey: &S, plan: &mut Plan, outer: OuterSide) -> Result<(), Refusal>
    ensures answer { told result ≡ plan_answer (S.legs survey.now) outer.leg outer.side }
    ensures state { plan_state plan.new ≡ planned_state (plan_answer (S.legs survey.now) outer.leg outer.side) (S.legs survey.now) outer.leg outer.side (plan_state plan.old) }
    ensures kept { (told result ≢ accepted) → plan.new ≡ plan.old }
{
    let count = survey.count();
    check_request(count, outer)?;
    *plan = plan_legs(survey, count, outer)?;
    Ok(())
}
