// Surveys: a list of legs that can be entered, struck, amended and asked about, by whatever means it is kept.
#![tactic(auto)]

ghost use Rattle.std.specs.Prelude.{◌≡◌, Bool, true, List, length, ◌≢◌, refl};
ghost use Rattle.std.proofs.Common.{◌∙◌};
ghost use Rattle.refusal.specs.Answers.{told, accepted};
ghost use Rattle.survey.specs.declared.leg.Leg.{Leg};
ghost use Rattle.survey.specs.declared.leg.Change.{Change};
ghost use Rattle.survey.specs.declared.leg.Change.TheVariants.{Enter, Strike, Amend};
ghost use Rattle.survey.specs.Model.{told_leg, valid_legs, enter_answer, enter_legs, strike_answer, strike_legs, amend_answer, amend_legs, query_answer};
ghost use Rattle.survey.specs.Changes.{Leading, changes};

pub mod checks;
pub mod leg;

use leg::{Attributes, Leg};
use refusal::Refusal;

/// A list of legs, and whether one may enter and may amend now. Each call answers as the reference model does.
pub trait Survey {
    /// The list of legs.
    ghost legs: { Self → List Leg };

    /// Whether a leg may be entered.
    ghost enters: { Self → Bool };

    /// Whether legs may be struck and amended.
    ghost amends: { Self → Bool };

    /// The list is valid at all times.
    ghost valid: { (s : Self) → valid_legs (legs s) ≡ true };

    /// These accepted changes led from the first state to the second, with all that they wrote into lent places.
    ghost leads: { Self → List Change → Self → Type 0 };

    ghost leading: { Leading leads };

    /// The number of legs.
    fn count(&self) -> usize
        ensures { result ≡ length (legs self.now) };

    /// Whether a leg may be entered now.
    fn may_enter(&self) -> bool
        ensures { result ≡ enters self.now };

    /// Whether legs may be struck and amended now.
    fn may_amend(&self) -> bool
        ensures { result ≡ amends self.now };

    /// Leg i.
    fn leg(&self, i: usize) -> Result<Leg, Refusal>
        ensures { told_leg result ≡ query_answer (legs self.now) i };

    /// Puts a leg at the end of the list.
    fn enter(&mut self, leg: Leg) -> Result<(), Refusal>
        ensures answer { told result ≡ enter_answer (legs self.old) (enters self.old) leg }
        ensures list { legs self.new ≡ enter_legs (legs self.old) (enters self.old) leg }
        ensures facts { (told result ≢ accepted) → (enters self.new ≡ enters self.old) × (amends self.new ≡ amends self.old) }
        ensures led { leads self.old (changes (told result) (Enter leg)) self.new };

    /// Removes legs `start` to `end - 1`; later legs move down.
    fn strike(&mut self, start: usize, end: usize) -> Result<(), Refusal>
        ensures answer { told result ≡ strike_answer (length (legs self.old)) (amends self.old) start end }
        ensures list { legs self.new ≡ strike_legs (legs self.old) (amends self.old) start end }
        ensures facts { (told result ≢ accepted) → (enters self.new ≡ enters self.old) × (amends self.new ≡ amends self.old) }
        ensures led { leads self.old (changes (told result) (Strike start end)) self.new };

    /// Sets the attributes of legs `start` to `end - 1`.
    fn amend(&mut self, start: usize, end: usize, attributes: Attributes) -> Result<(), Refusal>
        ensures answer { told result ≡ amend_answer (length (legs self.old)) (amends self.old) start end attributes }
        ensures list { legs self.new ≡ amend_legs (legs self.old) (amends self.old) start end attributes }
        ensures facts { (told result ≢ accepted) → (enters self.new ≡ enters self.old) × (amends self.new ≡ amends self.old) }
        ensures led { leads self.old (changes (told result) (Amend start end attributes)) self.new };
}

/// A lent survey is a survey.
impl<'b, S: Survey> Survey for &'b mut S {
    ghost legs = { λ s. S.Survey.legs s.now };

    ghost enters = { λ s. S.Survey.enters s.now };

    ghost amends = { λ s. S.Survey.amends s.now };

    ghost valid = { λ s. S.Survey.valid s.now };

    ghost leads = { λ s cs t. (t.ghost_name ≡ s.ghost_name) × S.Survey.leads s.now cs t.now };

    ghost leading = { record { stays = λ s. (refl, S.Survey.leading.stays s.now); onward = λ s t u cs ds p q. (q.0 ∙ p.0, S.Survey.leading.onward s.now t.now u.now cs ds p.1 q.1) } };

    fn count(&self) -> usize {
        (**self).count()
    }

    fn may_enter(&self) -> bool {
        (**self).may_enter()
    }

    fn may_amend(&self) -> bool {
        (**self).may_amend()
    }

    fn leg(&self, i: usize) -> Result<Leg, Refusal> {
        (**self).leg(i)
    }

    fn enter(&mut self, leg: Leg) -> Result<(), Refusal> {
        (**self).enter(leg)
    }

    fn strike(&mut self, start: usize, end: usize) -> Result<(), Refusal> {
        (**self).strike(start, end)
    }

    fn amend(&mut self, start: usize, end: usize, attributes: Attributes) -> Result<(), Refusal> {
        (**self).amend(start, end, attributes)
    }
}
