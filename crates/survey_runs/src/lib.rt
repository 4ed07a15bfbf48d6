// Whole runs on a new journal and on a new table, seen through a stack of the three views.
#![tactic(auto)]

ghost use Rattle.std.specs.Prelude.{◌≡◌, ◌%◌, [], length};
ghost use Rattle.table.specs.Tables.{table_legs};
ghost use Rattle.replay.specs.Entries.{written};
ghost use Rattle.journal.specs.Journals.{journal_legs, held_entries, taken_entries};
ghost use Rattle.transcript.specs.Runs.{run_legs, run_changes, Sent};
ghost use Rattle.survey_runs.specs.Stack.{stack_shows, stack_sends};
ghost use Rattle.survey_runs.specs.Ran.{Ran, journal_allows, table_enters, table_amends};

use journal::SurveyJournal;
use plan::plans::Plan;
use survey::Survey;
use survey::leg::Change;
use table::SurveyTable;
use transcript;
use transcript::step::Step;
use views::{Declination, Mirrored, Reversed, View, Viewed};

/// Sends the steps to any survey through a declination over the reversed view over the mirrored view. Calls to plan fill a plan
/// that is let go.
pub fn send_through<S: Survey>(below: &mut S, turn: u32, steps: &mut [Step])
    ensures { Sent (λ s. stack_shows (turn % 3600) (S.legs s)) S.enters S.amends (λ s cs t. S.leads s (stack_sends (turn % 3600) cs) t) below.old steps.old steps.new below.new }
{
    let mirrored = Viewed {
        view: Mirrored,
        below,
    };
    let reversed = Viewed {
        view: Reversed,
        below: mirrored,
    };
    let mut declined = Viewed {
        view: Declination::new(turn),
        below: reversed,
    };
    let mut plan = Plan::new();
    transcript::send(&mut declined, steps, &mut plan);
}

/// Sends the steps through the stack of views to a new journal over these entries.
pub fn run_journal<'a>(
    entries: &'a mut [Change],
    turn: u32,
    steps: &mut [Step],
) -> SurveyJournal<'a>
    ensures ran { Ran (journal_allows (length entries.old)) (journal_allows (length entries.old)) steps.old steps.new }
    ensures list { stack_shows (turn % 3600) (journal_legs result) ≡ run_legs [] steps.new }
    ensures taken { taken_entries result ≡ length (run_changes steps.new) }
    ensures lender { result.entries.places.ghost_name ≡ entries.entry.ghost_name }
    ensures entries { held_entries result ≡ written entries.old 0 (stack_sends (turn % 3600) (run_changes steps.new)) }
{
    let mut journal = SurveyJournal::new(entries);
    send_through(&mut journal, turn, steps);
    journal
}

/// Sends the steps through the stack of views to a new table.
pub fn run_table(turn: u32, steps: &mut [Step]) -> SurveyTable
    ensures ran { Ran table_enters table_amends steps.old steps.new }
    ensures list { stack_shows (turn % 3600) (table_legs result) ≡ run_legs [] steps.new }
{
    let mut table = SurveyTable::new();
    send_through(&mut table, turn, steps);
    table
}
