// One step of a transcript: a call, and the record of how it went.
ghost use Rattle.std.specs.Prelude.{◌≡◌};
ghost use Rattle.transcript.specs.Steps.{unsent};

use embedding::outer::OuterSide;
use refusal::Refusal;
use survey::leg::{Change, Leg};

/// A call to a survey: a change, a query, which changes nothing, or a call to plan it.
#[derive(Clone, Copy, Debug, PartialEq, Eq, Hash)]
pub enum Call {
    /// Enter, strike or amend.
    Change(Change),
    /// How many legs there are.
    Count,
    /// Which leg has this number.
    LegAt(usize),
    /// Whether a leg may be entered.
    MayEnter,
    /// Whether legs may be struck and amended.
    MayAmend,
    /// Plan the legs, with this side of a leg as the outer side.
    Plan(OuterSide),
}

/// What an accepted call tells.
#[derive(Clone, Copy, Debug, PartialEq, Eq, Hash)]
pub enum Reply {
    /// The change was made.
    Changed,
    /// The number of legs.
    Counted(usize),
    /// The leg asked for.
    Found(Leg),
    /// Whether the survey allows it.
    Allowed(bool),
    /// The plan was made.
    Planned,
}

/// A call, what the survey allowed just before it, and how it was answered.
#[derive(Clone, Copy, Debug, PartialEq, Eq, Hash)]
pub struct Step {
    pub call: Call,
    pub may_enter: bool,
    pub may_amend: bool,
    /// None until the call is sent.
    pub answer: Option<Result<Reply, Refusal>>,
}

impl Step {
    /// A step to be sent.
    pub fn new(call: Call) -> Step
        ensures { result ≡ unsent call }
    {
        Step {
            call,
            may_enter: false,
            may_amend: false,
            answer: None,
        }
    }
}
