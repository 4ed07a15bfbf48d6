ghost use Rattle.std.specs.Prelude.{◌≡◌, true, ◌≤◌, take};
ghost use Rattle.survey.specs.Model.{valid_legs};
ghost use Rattle.replay.specs.Replay.{replayed};

use slice_vec::SliceVec;
use survey::leg::Change;

/// A survey kept as a journal of its accepted changes, in lent entries that are written once and played again.
#[derive(Drop)]
pub struct SurveyJournal<'a> {
    pub(crate) entries: SliceVec<'a, Change>,
    ghost small: { entries.used ≤ 4096 },
    ghost valid: { valid_legs (replayed (take entries.used entries.places.now)) ≡ true },
}
