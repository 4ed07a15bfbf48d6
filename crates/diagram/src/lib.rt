// The whole promise in one call: any list of calls to a survey, then a drawing of the plan that they leave.
#![tactic(auto)]

ghost use Rattle.std.specs.Prelude.{◌≡◌, length};
ghost use Rattle.plan.specs.States.{plan_state};
ghost use Rattle.transcript.specs.Runs.{Sent, run_plan};
ghost use Rattle.draw.specs.Outcomes.{Outcome};

use draw::drawing::draw;
use draw::drawings::Drawing;
use plan::plans::Plan;
use price::{Price, Tariff};
use refusal::Refusal;
use search::Label;
use slice_vec::SliceVec;
use survey::Survey;
use transcript::send;
use transcript::step::Step;

/// Sends each step's call to the survey, recording what it allowed and how it answered, and then draws the plan as the last
/// accepted call to plan left it. Returns the price of the drawing.
pub fn run<S: Survey, T: Tariff>(
    survey: &mut S,
    steps: &mut [Step],
    mut plan: Plan,
    tariff: &T,
    labels: &mut SliceVec<'_, Label<T::Price>>,
    drawing: &mut Drawing,
) -> Result<T::Price, Refusal>
    ensures sent { Sent S.legs S.enters S.amends S.leads survey.old steps.old steps.new survey.new }
    ensures drawn { Outcome T.Price.Price.ops (T.Tariff.rate tariff.now) (run_plan (S.legs survey.old) (plan_state plan) steps.new) drawing.old drawing.new (record { places = labels.old.places.now; used = labels.old.used }) (record { places = labels.new.places.now; used = labels.new.used }) result }
    ensures long { length labels.new.places.now ≡ length labels.old.places.now }
    ensures lender { labels.new.places.ghost_name ≡ labels.old.places.ghost_name }
{
    send(survey, steps, &mut plan);
    draw(plan, tariff, labels, drawing)
}
