// Small caves, drawn and worked by hand.
#![tactic(auto)]

#[cfg(test)]
mod tests {
    use draw::drawing::draw;
    use draw::drawings::Drawing;
    use plan::OuterSide;
    use plan::planning::plan;
    use plan::plans::Plan;
    use price::{Plain, PlainTariff, Ranked, RankedTariff};
    use refusal::Refusal;
    use search::Label;
    use slice_vec::SliceVec;
    use survey::Survey;
    use survey::leg::Leg;
    use table::SurveyTable;

    fn leg(from: u32, to: u32, bearing: u32, weight: u32, wet: u32, limit: u32) -> Leg {
        Leg {
            from,
            to,
            bearing,
            weight,
            wet,
            limit,
        }
    }

    // Three legs in a loop, drawn with its outside on the left of leg 0.
    fn loop_plan(legs: [Leg; 3]) -> Plan {
        let mut table = SurveyTable::new();
        let mut made = Plan::new();
        let _ = table.enter(legs[0]);
        let _ = table.enter(legs[1]);
        let _ = table.enter(legs[2]);
        let _ = plan(&table, &mut made, OuterSide { leg: 0, side: 0 });
        made
    }

    // Number, value returned and price.
    fn told(r: Result<Plain, Refusal>) -> (u32, usize, i64) {
        match r {
            Ok(price) => (0, 0, price.value),
            Err(e) => (e.number(), e.value(), 0),
        }
    }

    // What a draw over so many labels, at most 8, tells, and the right bends of the three legs then.
    fn drawn(plan: Plan, labels: usize) -> ((u32, usize, i64), (u16, u16, u16), usize) {
        let mut places = [Label {
            price: Plain { value: 0 },
            end: 0,
        }; 8];
        let mut drawing = Drawing::new();
        let mut vec = SliceVec::new(&mut places[..labels.min(8)]);
        let answer = told(draw(plan, &PlainTariff, &mut vec, &mut drawing));
        (
            answer,
            (drawing.right(0), drawing.right(1), drawing.right(2)),
            drawing.bends(),
        )
    }

    #[test]
    fn one_leg(rt: HostRuntime) {
        let mut places = [Label {
            price: Plain { value: 0 },
            end: 0,
        }; 5];
        let mut drawing = Drawing::new();
        let mut vec = SliceVec::new(&mut places);
        assert_eq!(rt;
            told(draw(Plan::new(), &PlainTariff, &mut vec, &mut drawing)),
            (0, 0, 0)
        );
        assert_eq!(rt; drawing.bends(), 0);
        assert_eq!(rt; drawing.plan().stations(), 2);
        assert_eq!(rt; drawing.plan().faces(), 1);
        assert_eq!(rt; drawing.large_at(1).unwrap_or(9), 0);
        assert_eq!(rt; drawing.large_at(2).unwrap_or(9), 1);
        assert_eq!(rt; drawing.large_at(3).unwrap_or(9), 9);
    }

    #[test]
    fn cheapest_leg_bends(rt: HostRuntime) {
        let legs = [
            leg(1, 2, 0, 5, 0, 999),
            leg(2, 3, 1200, 1, 0, 999),
            leg(3, 1, 2400, 7, 0, 999),
        ];
        assert_eq!(rt; drawn(loop_plan(legs), 7), ((0, 0, 2), (0, 2, 0), 2));
        assert_eq!(rt; drawn(loop_plan(legs), 6), ((15, 7, 0), (0, 0, 0), 0));
    }

    #[test]
    fn limits(rt: HostRuntime) {
        let one = [
            leg(1, 2, 0, 5, 0, 999),
            leg(2, 3, 1200, 1, 0, 0),
            leg(3, 1, 2400, 7, 0, 999),
        ];
        assert_eq!(rt; drawn(loop_plan(one), 8), ((0, 0, 10), (2, 0, 0), 2));
        let all = [
            leg(1, 2, 0, 5, 0, 0),
            leg(2, 3, 1200, 1, 0, 0),
            leg(3, 1, 2400, 7, 0, 0),
        ];
        assert_eq!(rt; drawn(loop_plan(all), 8), ((16, 0, 0), (0, 0, 0), 0));
    }

    #[test]
    fn dry_before_wet(rt: HostRuntime) {
        let legs = [
            leg(1, 2, 0, 1, 1, 999),
            leg(2, 3, 1200, 1, 1, 999),
            leg(3, 1, 2400, 9, 0, 999),
        ];
        let mut places = [Label {
            price: Ranked {
                first: 0,
                second: 0,
            },
            end: 0,
        }; 7];
        let mut drawing = Drawing::new();
        let mut vec = SliceVec::new(&mut places);
        let price = match draw(loop_plan(legs), &RankedTariff, &mut vec, &mut drawing) {
            Ok(price) => (price.first, price.second),
            Err(_) => (1, 1),
        };
        assert_eq!(rt; price, (0, 18));
        assert_eq!(rt; drawing.right(2), 2);
    }
}
