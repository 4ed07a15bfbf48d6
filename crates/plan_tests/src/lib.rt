// Worked caves: what planning them answers, and what the plans tell.
#![tactic(auto)]

#[cfg(test)]
mod tests {
    use journal::SurveyJournal;
    use plan::OuterSide;
    use plan::planning::plan;
    use plan::plans::Plan;
    use plan::turning::turn;
    use plan_check::check_request;
    use refusal::number_and_value as told;
    use std::test::Fail;
    use survey::Survey;
    use survey::leg::{Change, Leg};
    use table::SurveyTable;

    fn outer(leg: usize, side: u32) -> OuterSide {
        OuterSide { leg, side }
    }

    fn survey_of(legs: &[Leg]) -> Result<SurveyTable, Fail> {
        let mut table = SurveyTable::new();
        for l in legs {
            if told(&table.enter(*l)) != (0, 0) {
                return Err(Fail::new("the table takes each leg"));
            }
        }
        Ok(table)
    }

    #[test]
    fn four_directions_at_a_station_are_refused(rt: HostRuntime) -> Result<(), Fail> {
        let table = survey_of(&[
            Leg::plain(1, 2, 0),
            Leg::plain(3, 1, 2700),
            Leg::plain(1, 4, 1800),
            Leg::plain(5, 1, 900),
        ])?;
        let mut held = Plan::new();
        assert_eq!(rt; told(&plan(&table, &mut held, outer(0, 0))), (13, 1));
        assert_eq!(rt; held.count(), 1);
        Ok(())
    }

    #[test]
    fn three_legs_side_by_side_are_refused(rt: HostRuntime) -> Result<(), Fail> {
        let table = survey_of(&[
            Leg::plain(1, 2, 0),
            Leg::plain(1, 2, 100),
            Leg::plain(1, 2, 200),
        ])?;
        let mut held = Plan::new();
        assert_eq!(rt; told(&plan(&table, &mut held, outer(0, 0))), (14, 1));
        Ok(())
    }

    #[test]
    fn two_parts_are_refused(rt: HostRuntime) -> Result<(), Fail> {
        let table = survey_of(&[Leg::plain(1, 2, 0), Leg::plain(3, 4, 0)])?;
        let mut held = Plan::new();
        assert_eq!(rt; told(&plan(&table, &mut held, outer(0, 0))), (12, 1));
        Ok(())
    }

    #[test]
    fn no_legs_or_too_many_are_refused(rt: HostRuntime) {
        let table = SurveyTable::new();
        let mut held = Plan::new();
        assert_eq!(rt; told(&plan(&table, &mut held, outer(0, 0))), (9, 0));
        assert_eq!(rt; told(&check_request(257, outer(300, 2))), (10, 257));
        assert_eq!(rt; told(&check_request(256, outer(256, 0))), (11, 256));
    }

    #[test]
    fn a_directed_loop_demands_one_less_than_none(rt: HostRuntime) -> Result<(), Fail> {
        let table = survey_of(&[
            Leg::plain(1, 2, 0),
            Leg::plain(2, 3, 1200),
            Leg::plain(3, 1, 2400),
        ])?;
        let mut held = Plan::new();
        assert_eq!(rt; told(&plan(&table, &mut held, outer(0, 0))), (0, 0));
        assert_eq!(rt; held.stations(), 3);
        assert_eq!(rt; held.faces(), 2);
        assert_eq!(rt; held.demand(0), Some(1));
        assert_eq!(rt; held.demand(1), Some(-1));
        assert_eq!(rt; held.demand(6), None);
        Ok(())
    }

    #[test]
    fn a_path_of_256_legs_has_one_face(rt: HostRuntime) {
        let mut table = SurveyTable::new();
        for i in 1..257u32 {
            assert_eq!(rt; told(&table.enter(Leg::plain(i, i + 1, 0))), (0, 0));
        }
        let mut held = Plan::new();
        assert_eq!(rt; told(&plan(&table, &mut held, outer(255, 1))), (0, 0));
        assert_eq!(rt; held.stations(), 257);
        assert_eq!(rt; held.faces(), 1);
        assert_eq!(rt; held.demand(511), Some(2));
    }

    #[test]
    fn a_journal_of_257_legs_is_refused(rt: HostRuntime) {
        let mut entries = [Change::Strike { start: 0, end: 0 }; 257];
        let mut journal = SurveyJournal::new(&mut entries);
        for i in 1..258u32 {
            assert_eq!(rt; told(&journal.enter(Leg::plain(i, i + 1, 0))), (0, 0));
        }
        let mut held = Plan::new();
        assert_eq!(rt; told(&plan(&journal, &mut held, outer(0, 0))), (10, 257));
        assert_eq!(rt; held.count(), 1);
    }

    #[test]
    fn a_plan_turns_or_is_handed_back(rt: HostRuntime) -> Result<(), Fail> {
        match turn(Plan::new(), outer(0, 2)) {
            Ok(_) => Err(Fail::new("turned to a side that no leg has")),
            Err(back) => {
                assert_eq!(rt; (back.refusal.number(), back.refusal.value()), (11, 1));
                assert_eq!(rt; back.plan.outer_side(), 0);
                Ok(())
            }
        }
    }
}
