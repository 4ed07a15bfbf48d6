// Transcripts: any list of calls sent to any survey and its plan, with what it allowed and answered at each.
#![tactic(auto)]

ghost use Rattle.std.specs.Prelude.{◌≡◌, [], slice_index_or};
ghost use Rattle.refusal.specs.Answers.{told_by};
ghost use Rattle.survey.specs.Changes.{changes};
ghost use Rattle.survey.specs.Ends.{no_leg};
ghost use Rattle.survey.specs.Model.{query_answer};
ghost use Rattle.embedding.specs.Plans.{plan_answer};
ghost use Rattle.plan.specs.States.{plan_state, planned_state};
ghost use Rattle.transcript.specs.declared.step.Reply.TheVariants.{Changed, Found, Planned};
ghost use Rattle.transcript.specs.Steps.{reply_told};
ghost use Rattle.transcript.specs.Calls.{change_answer, change_legs, call_answer, call_legs, call_reply, Replies, call_changes, call_plan};
ghost use Rattle.transcript.specs.Runs.{run_plan, Recorded, Sent};

pub mod step;

use embedding::outer::OuterSide;
use plan::planning;
use plan::plans::Plan;
use refusal::Refusal;
use step::{Call, Reply, Step};
use survey::Survey;
use survey::leg::Change;

/// Sends each step's call to the survey, in order, and records in the step what the survey allowed just before it
/// and how it answered. Accepted calls to plan fill the plan.
pub fn send<S: Survey>(survey: &mut S, steps: &mut [Step], plan: &mut Plan)
    ensures sent { Sent S.legs S.enters S.amends S.leads survey.old steps.old steps.new survey.new }
    ensures plan { plan_state plan.new ≡ run_plan (S.legs survey.old) (plan_state plan.old) steps.new }
{
    for step in steps.iter_mut() {
        *step = send_one(survey, plan, step.call);
    }
}

// Sends one call, and records how it went.
fn send_one<S: Survey>(survey: &mut S, plan: &mut Plan, call: Call) -> Step
    ensures call { result.call ≡ call }
    ensures recorded { Recorded S.legs S.enters S.amends S.leads survey.old result survey.new }
    ensures plan { plan_state plan.new ≡ call_plan (S.legs survey.old) (plan_state plan.old) call }
{
    let may_enter = (*survey).may_enter();
    let may_amend = (*survey).may_amend();
    let answer = Some(answer(survey, plan, call));
    Step {
        call,
        may_enter,
        may_amend,
        answer,
    }
}

// Makes a call.
fn answer<S: Survey>(survey: &mut S, plan: &mut Plan, call: Call) -> Result<Reply, Refusal>
    ensures answer { told_by reply_told result ≡ call_answer (S.legs survey.old) (S.enters survey.old) (S.amends survey.old) call }
    ensures reply { Replies result (call_reply (S.legs survey.old) (S.enters survey.old) (S.amends survey.old) call) }
    ensures list { S.legs survey.new ≡ call_legs (S.legs survey.old) (S.enters survey.old) (S.amends survey.old) call }
    ensures led { S.leads survey.old (call_changes (told_by reply_told result) call) survey.new }
    ensures kept { call_changes (told_by reply_told result) call ≡ [] → (S.enters survey.new ≡ S.enters survey.old) × (S.amends survey.new ≡ S.amends survey.old) }
    ensures plan { plan_state plan.new ≡ call_plan (S.legs survey.old) (plan_state plan.old) call }
{
    match call {
        Call::Change(change) => make(survey, change),
        Call::Count => Ok(Reply::Counted((*survey).count())),
        Call::LegAt(i) => find(survey, i),
        Call::MayEnter => Ok(Reply::Allowed((*survey).may_enter())),
        Call::MayAmend => Ok(Reply::Allowed((*survey).may_amend())),
        Call::Plan(outer) => make_plan(survey, plan, outer),
    }
}

// Makes a change.
fn make<S: Survey>(survey: &mut S, change: Change) -> Result<Reply, Refusal>
    ensures answer { told_by reply_told result ≡ change_answer (S.legs survey.old) (S.enters survey.old) (S.amends survey.old) change }
    ensures reply { Replies result Changed }
    ensures list { S.legs survey.new ≡ change_legs (S.legs survey.old) (S.enters survey.old) (S.amends survey.old) change }
    ensures led { S.leads survey.old (changes (told_by reply_told result) change) survey.new }
    ensures kept { changes (told_by reply_told result) change ≡ [] → (S.enters survey.new ≡ S.enters survey.old) × (S.amends survey.new ≡ S.amends survey.old) }
{
    match change {
        Change::Enter(leg) => survey.enter(leg)?,
        Change::Strike { start, end } => survey.strike(start, end)?,
        Change::Amend {
            start,
            end,
            attributes,
        } => survey.amend(start, end, attributes)?,
    }
    Ok(Reply::Changed)
}

// Asks for a leg.
fn find<S: Survey>(survey: &S, i: usize) -> Result<Reply, Refusal>
    ensures answer { told_by reply_told result ≡ query_answer (S.legs survey.now) i }
    ensures reply { Replies result (Found (slice_index_or (S.legs survey.now) i no_leg)) }
{
    Ok(Reply::Found(survey.leg(i)?))
}

// Plans the legs.
fn make_plan<S: Survey>(survey: &S, plan: &mut Plan, outer: OuterSide) -> Result<Reply, Refusal>
    ensures answer { told_by reply_told result ≡ plan_answer (S.legs survey.now) outer.leg outer.side }
    ensures reply { Replies result Planned }
    ensures plan { plan_state plan.new ≡ planned_state (plan_answer (S.legs survey.now) outer.leg outer.side) (S.legs survey.now) outer.leg outer.side (plan_state plan.old) }
{
    planning::plan(survey, plan, outer)?;
    Ok(Reply::Planned)
}
