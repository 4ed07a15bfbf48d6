ghost use Rattle.std.specs.Prelude.{◌≡◌, ℕ, ◌<◌, ◌≤◌, false, length, if◌then◌else◌, slice_index_or};
ghost use Rattle.survey.specs.Ends.{ends};
ghost use Rattle.plan.specs.States.{plan_legs};
ghost use Rattle.shape.specs.Shapes.{switch, large_at};
ghost use Rattle.draw.specs.Tables.{straight, shape_of};

use crate::bends::Bends;
use plan::plans::Plan;

/// A plan with a shape: which angles are large, by end, and the bends of each leg.
/// Each source or sink has exactly one large angle, and other stations have none. Entries past the last leg are 0.
#[derive(Drop)]
pub struct Drawing {
    pub(crate) plan: Plan,
    pub(crate) large: [bool; 512],
    pub(crate) bends: [Bends; 256],
    ghost every_end: { length large ≡ 512 },
    ghost every_leg: { length bends ≡ 256 },
    ghost blank: { (e : ℕ) → ends (plan_legs plan) ≤ e → slice_index_or large e false ≡ false },
    ghost unbent: { (i : ℕ) → length (plan_legs plan) ≤ i → slice_index_or bends i straight ≡ straight },
    ghost angles: { (e : ℕ) → e < ends (plan_legs plan) → large_at (plan_legs plan) (shape_of large bends) e ≡ (if switch (plan_legs plan) e then 1 else 0) },
}
