// Drawing a plan.
ghost use Rattle.std.specs.Prelude.{◌≡◌, ℕ, ◌<◌, ◌≤◌, false, length, if◌then◌else◌, slice_index_or};
ghost use Rattle.survey.specs.Ends.{ends};
ghost use Rattle.plan.specs.States.{plan_legs, plan_state, outer_face};
ghost use Rattle.search.specs.Networks.{units};
ghost use Rattle.shape.specs.Shapes.{switch, large_at};
ghost use Rattle.shape.specs.Units.{side_count};
ghost use Rattle.draw.specs.Tables.{straight, shape_of};
ghost use Rattle.draw.specs.Shapes.{LeastShape};
ghost use Rattle.draw.specs.Routes.{MakesLeast};
ghost use Rattle.draw.specs.Drawings.{drawing_shape, drawing_state};
ghost use Rattle.draw.specs.Outcomes.{Outcome as Leaves};

use crate::bends::Bends;
use crate::drawings::Drawing;
use crate::filling::{bends_of, large_of};
use crate::pricing::price_bends;
use crate::routing::route;
use plan::plans::Plan;
use price::Tariff;
use refusal::Refusal;
use search::{Label, Side};
use slice_vec::SliceVec;

// A drawing of the plan with these tables, which keep what the type says of them.
fn drawing_of(plan: Plan, large: [bool; 512], bends: [Bends; 256]) -> Drawing
    requires blank { (e : ℕ) → ends (plan_legs plan) ≤ e → slice_index_or large e false ≡ false }
    requires unbent { (i : ℕ) → length (plan_legs plan) ≤ i → slice_index_or bends i straight ≡ straight }
    requires angles { (e : ℕ) → e < ends (plan_legs plan) → large_at (plan_legs plan) (shape_of large bends) e ≡ (if switch (plan_legs plan) e then 1 else 0) }
    ensures plan { drawing_state result ≡ plan_state plan }
    ensures shape { drawing_shape result ≡ shape_of large bends }
{
    Drawing { plan, large, bends }
}

// Puts the plan and the shape that the units make into the drawing, and tells the price.
fn keep<T: Tariff>(plan: Plan, tariff: &T, flow: &[u16], drawing: &mut Drawing) -> T::Price
    requires flow { length flow.now ≡ side_count (plan_legs plan) }
    requires least { MakesLeast T.Price.Price.ops (T.Tariff.rate tariff.now) (plan_legs plan) (outer_face plan) (units flow.now) }
    ensures plan { drawing_state drawing.new ≡ plan_state plan }
    ensures shape { LeastShape T.Price.Price.ops (T.Tariff.rate tariff.now) (plan_legs plan) (outer_face plan) (drawing_shape drawing.new) result }
{
    let count = plan.count();
    let large = large_of(flow, 2 * count);
    let bends = bends_of(flow, count);
    let price = price_bends(tariff, &plan.cave(), &bends);
    *drawing = drawing_of(plan, large, bends);
    price
}

/// Takes a plan away and fills a drawing with a least valid shape of it, and tells the price. It takes as many labels as there
/// are legs and four more, in use or not. A refusal leaves the drawing as it was; what the labels hold after a draw is open,
/// unless there were too few of them.
pub fn draw<T: Tariff>(
    plan: Plan,
    tariff: &T,
    labels: &mut SliceVec<'_, Label<T::Price>>,
    drawing: &mut Drawing,
) -> Result<T::Price, Refusal>
    ensures outcome { Leaves T.Price.Price.ops (T.Tariff.rate tariff.now) (plan_state plan) drawing.old drawing.new (record { places = labels.old.places.now; used = labels.old.used }) (record { places = labels.new.places.now; used = labels.new.used }) result }
    ensures long { length labels.new.places.now ≡ length labels.old.places.now }
    ensures lender { labels.new.places.ghost_name ≡ labels.old.places.ghost_name }
{
    let count = plan.count();
    if labels.capacity() < count + 4 {
        return Err(Refusal::FewLabels(count + 4));
    }
    let mut sides = [Side::default(); 1536];
    let mut flow = [0; 1536];
    let flow = &mut flow[..6 * count];
    let sides = &mut sides[..6 * count];
    route(&plan.cave(), plan.outer_end(), tariff, labels, sides, flow).map_err(
        |_| Refusal::NoShape,
    )?;
    Ok(keep(plan, tariff, flow, drawing))
}
