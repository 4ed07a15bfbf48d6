// Worked examples of surveys: bearings at the edge of their range through every view, the journal's last free
// entry, and ranges at the end of the list.
#![tactic(auto)]

ghost use Rattle.std.specs.Prelude.{◌≡◌};
ghost use Rattle.survey.specs.Model.{query_answer};
ghost use Rattle.survey_tests.specs.Examples.{bearing_told};

use survey::Survey;

// The bearing of leg i, or none.
fn bearing<S: Survey>(s: &S, i: usize) -> Option<u32>
    ensures { result ≡ bearing_told (query_answer (S.legs s.now) i) }
{
    s.leg(i).ok().map(|l| l.bearing)
}

#[cfg(test)]
mod tests {
    use super::*;
    use journal::SurveyJournal;
    use refusal::number_and_value as told;
    use survey::leg::{Attributes, Change, Leg};
    use table::SurveyTable;
    use views::{Declination, Mirrored, Reversed, Viewed};

    const UNUSED: Change = Change::Strike { start: 7, end: 3 };

    // Bearing 3,599 is accepted and told again, and 3,600 is refused with its value.
    fn edge_of_bearings<S: Survey>(s: &mut S) -> bool {
        told(&s.enter(Leg::plain(1, 2, 3599))) == (0, 0)
            && bearing(s, 0) == Some(3599)
            && told(&s.enter(Leg::plain(3, 4, 3600))) == (3, 3600)
    }

    #[test]
    fn bearings_through_each_view(rt: HostRuntime) {
        let mut turned = Viewed {
            view: Declination::new(10),
            below: SurveyTable::new(),
        };
        assert!(rt; edge_of_bearings(&mut turned));
        assert!(rt; bearing(&turned.below, 0) == Some(3589));
        let mut reversed = Viewed {
            view: Reversed,
            below: SurveyTable::new(),
        };
        assert!(rt; edge_of_bearings(&mut reversed));
        assert!(rt; bearing(&reversed.below, 0) == Some(1799));
        let mut mirrored = Viewed {
            view: Mirrored,
            below: SurveyTable::new(),
        };
        assert!(rt; edge_of_bearings(&mut mirrored));
        assert!(rt; bearing(&mirrored.below, 0) == Some(1));
    }

    #[test]
    fn bearings_through_a_stack(rt: HostRuntime) {
        let mut entries = [UNUSED; 2];
        let mut journal = SurveyJournal::new(&mut entries);
        let low = Viewed {
            view: Mirrored,
            below: &mut journal,
        };
        let middle = Viewed {
            view: Reversed,
            below: low,
        };
        let mut top = Viewed {
            view: Declination::new(10),
            below: middle,
        };
        assert!(rt; edge_of_bearings(&mut top));
        // 3599 - 10 = 3589, turned round 1789, mirrored 1811
        assert!(rt; bearing(&journal, 0) == Some(1811));
    }

    #[test]
    fn bearings_of_a_journal_held_by_a_view(rt: HostRuntime) {
        let mut entries = [UNUSED; 2];
        let mut seen = Viewed {
            view: Mirrored,
            below: SurveyJournal::new(&mut entries),
        };
        assert!(rt; edge_of_bearings(&mut seen));
        assert!(rt; bearing(&seen.below, 0) == Some(1));
    }

    #[test]
    fn last_free_entry(rt: HostRuntime) {
        let mut entries = [UNUSED; 2];
        let mut journal = SurveyJournal::new(&mut entries);
        assert!(rt; told(&journal.enter(Leg::plain(1, 2, 0))) == (0, 0));
        assert!(rt; journal.may_enter() && journal.may_amend());
        assert!(rt; told(&journal.strike(1, 1)) == (0, 0));
        assert!(rt; !journal.may_enter() && !journal.may_amend());
        assert!(rt; told(&journal.enter(Leg::plain(3, 4, 0))) == (7, 1));
        assert!(rt;
            told(&journal.amend(
                1,
                1,
                Attributes {
                    weight: 0,
                    wet: 0,
                    limit: 0,
                },
            )) == (7, 1)
        );
        assert!(rt; journal.count() == 1);
    }

    #[test]
    fn ranges_at_the_end(rt: HostRuntime) {
        let mut entries = [UNUSED; 8];
        let mut journal = SurveyJournal::new(&mut entries);
        assert!(rt; told(&journal.enter(Leg::plain(1, 2, 0))) == (0, 0));
        assert!(rt; told(&journal.enter(Leg::plain(2, 3, 1200))) == (0, 0));
        assert!(rt; told(&journal.enter(Leg::plain(3, 1, 2400))) == (0, 0));
        assert!(rt; told(&journal.strike(3, 3)) == (0, 0));
        assert!(rt; told(&journal.strike(2, 4)) == (6, 3));
        assert!(rt; told(&journal.strike(1, 2)) == (0, 0));
        assert!(rt; bearing(&journal, 1) == Some(2400));
    }

    #[test]
    fn declination_past_the_circle(rt: HostRuntime) {
        let mut table = SurveyTable::new();
        assert!(rt; told(&table.enter(Leg::plain(1, 2, 3599))) == (0, 0));
        let same = Viewed {
            view: Declination::new(3600),
            below: &mut table,
        };
        assert!(rt; bearing(&same, 0) == Some(3599));
        let by_one = Viewed {
            view: Declination::new(3601),
            below: &mut table,
        };
        assert!(rt; bearing(&by_one, 0) == Some(0));
    }
}
