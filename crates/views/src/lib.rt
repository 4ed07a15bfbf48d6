// Views: any survey seen with its bearings turned, its legs reversed or mirrored, in any stack.
#![tactic(auto)]

ghost use Rattle.std.specs.Prelude.{◌≡◌, map, refl};
ghost use Rattle.std.proofs.Common.{◌∙◌};
ghost use Rattle.view_laws.specs.Sent.{sent};
ghost use Rattle.view_laws.proofs.Shown.{valid_shown, onward_below};

pub mod view;

use refusal::Refusal;
use survey::Survey;
use survey::leg::{Attributes, Leg};
pub use view::{Declination, Mirrored, Reversed, View};

/// A survey seen through a view. It is itself a survey, so it can be seen through another.
#[derive(Drop)]
pub struct Viewed<V, S> {
    pub view: V,
    pub below: S,
}

impl<V: View, S: Survey> Survey for Viewed<V, S> {
    ghost legs = { λ s. map (V.View.shows s.view) (S.Survey.legs s.below) };

    ghost enters = { λ s. S.Survey.enters s.below };

    ghost amends = { λ s. S.Survey.amends s.below };

    ghost valid = { λ s. valid_shown (V.View.laws s.view) (S.Survey.legs s.below) (S.Survey.valid s.below) };

    ghost leads = { λ s cs t. (t.view ≡ s.view) × S.Survey.leads s.below (map (sent (V.View.sends s.view)) cs) t.below };

    ghost leading = { record { stays = λ s. (refl, S.Survey.leading.stays s.below); onward = λ s t u cs ds p q. (q.0 ∙ p.0, onward_below V.View.sends S.Survey.leading s.view t.view s.below t.below u.below cs ds p.0 p.1 q.1) } };

    /// The count of the survey below.
    fn count(&self) -> usize {
        self.below.count()
    }

    /// What the survey below says.
    fn may_enter(&self) -> bool {
        self.below.may_enter()
    }

    /// What the survey below says.
    fn may_amend(&self) -> bool {
        self.below.may_amend()
    }

    /// Leg i of the survey below, as the view shows it.
    fn leg(&self, i: usize) -> Result<Leg, Refusal> {
        Ok(self.view.show(self.below.leg(i)?))
    }

    /// Sends down the leg that the view then shows as this one.
    fn enter(&mut self, leg: Leg) -> Result<(), Refusal> {
        self.below.enter(self.view.send(leg))
    }

    /// Strikes the same range below.
    fn strike(&mut self, start: usize, end: usize) -> Result<(), Refusal> {
        self.below.strike(start, end)
    }

    /// Amends the same range below.
    fn amend(&mut self, start: usize, end: usize, attributes: Attributes) -> Result<(), Refusal> {
        self.below.amend(start, end, attributes)
    }
}
