// Examples, worked by hand, that the vector, the survey table and the reader must follow.
#![tactic(auto)]

#[cfg(test)]
mod tests {
    use refusal::number_and_value as told;
    use slice_vec::SliceVec;
    use std::test::Fail;
    use survey::Survey;
    use survey::leg::{Attributes, Leg};
    use svx::fault::Layer;
    use svx::read;
    use table::SurveyTable;

    // What reading a text into an empty table answers: number, line, place, value, the text's own or not; and the legs then.
    fn outcome(text: &[u8]) -> (u32, usize, usize, usize, bool, usize) {
        let mut table = SurveyTable::new();
        let r = read(text, &mut table);
        let n = table.count();
        match r {
            Ok(()) => (0, 0, 0, 0, false, n),
            Err(f) => {
                (
                    f.number(),
                    f.line,
                    f.place,
                    f.value(),
                    f.layer == Layer::Text,
                    n,
                )
            }
        }
    }

    fn loop_of_three() -> SurveyTable {
        let mut t = SurveyTable::new();
        let _ = t.enter(Leg::plain(1, 2, 0));
        let _ = t.enter(Leg::plain(2, 3, 1200));
        let _ = t.enter(Leg::plain(3, 1, 2400));
        t
    }

    // Of a leg that is there.
    fn weight_and_from(t: &SurveyTable, i: usize) -> (u32, u32) {
        match t.leg(i) {
            Ok(l) => (l.weight, l.from),
            Err(_) => (0, 0),
        }
    }

    #[test]
    fn texts(rt: HostRuntime) {
        assert_eq!(rt;
            outcome(b"1 2 10 0 0\n2 3 10 120 0\n3 1 10.5 240.0 -3\n"),
            (0, 0, 0, 0, false, 3)
        );
        assert_eq!(rt; outcome(b""), (0, 0, 0, 0, false, 0));
        assert_eq!(rt;
            outcome(b"\t1 2 10 0 0 ; x\r\n*data normal from to tape compass clino\n"),
            (0, 0, 0, 0, false, 1)
        );
        assert_eq!(rt;
            outcome(b"1 2 10 0 0\n*date 2020\n"),
            (20, 2, 11, 0, true, 1)
        );
        assert_eq!(rt;
            outcome(b"1 2 10 0 0\n\n  2 3 10 0"),
            (21, 3, 14, 4, true, 1)
        );
        assert_eq!(rt; outcome(b"1 2 10 0 0 0"), (21, 1, 0, 6, true, 0));
        assert_eq!(rt; outcome(b"1 010 10 0 0"), (22, 1, 2, 0, true, 0));
    }

    #[test]
    fn faults(rt: HostRuntime) {
        assert_eq!(rt; outcome(b"1 2 10 360 0"), (23, 1, 7, 0, true, 0));
        assert_eq!(rt; outcome(b"1 2 10x 360 0"), (23, 1, 4, 0, true, 0));
        assert_eq!(rt; outcome(b"1 2 10 0 5.123"), (23, 1, 9, 0, true, 0));
        assert_eq!(rt; outcome(b" 7 7 10 0 0"), (2, 1, 1, 7, false, 0));
        assert_eq!(rt;
            outcome(b"1 2 10 0 0\n 3 2 10 0 0"),
            (5, 2, 12, 0, false, 1)
        );
    }

    #[test]
    fn ranges(rt: HostRuntime) {
        let mut t = loop_of_three();
        assert_eq!(rt; told(&t.strike(3, 3)), (0, 0));
        assert_eq!(rt; told(&t.strike(2, 4)), (6, 3));
        assert_eq!(rt; told(&t.strike(2, 1)), (6, 3));
        assert_eq!(rt;
            told(&t.amend(
                0,
                2,
                Attributes {
                    weight: 5,
                    wet: 1,
                    limit: 0,
                },
            )),
            (0, 0)
        );
        assert_eq!(rt;
            told(&t.amend(
                0,
                2,
                Attributes {
                    weight: 1001,
                    wet: 2,
                    limit: 0,
                },
            )),
            (4, 1)
        );
        assert_eq!(rt;
            (weight_and_from(&t, 1), weight_and_from(&t, 2)),
            ((5, 2), (1, 3))
        );
        assert_eq!(rt; told(&t.strike(1, 2)), (0, 0));
        assert_eq!(rt; (t.count(), weight_and_from(&t, 1)), (2, (1, 3)));
    }

    #[test]
    fn enters(rt: HostRuntime) {
        let mut t = SurveyTable::new();
        assert_eq!(rt; told(&t.enter(Leg::plain(0, 2, 9999))), (1, 0));
        assert_eq!(rt; told(&t.enter(Leg::plain(4, 4, 9999))), (2, 4));
        assert_eq!(rt; told(&t.enter(Leg::plain(1, 2, 3600))), (3, 3600));
        assert_eq!(rt; told(&t.enter(Leg::plain(1, 2, 3599))), (0, 0));
        assert_eq!(rt; told(&t.enter(Leg::plain(2, 3, 1799))), (5, 0));
        for i in 2..257 {
            assert_eq!(rt; told(&t.enter(Leg::plain(i, i + 1, 0))), (0, 0));
        }
        assert_eq!(rt;
            (t.count(), t.may_enter(), t.may_amend()),
            (256, false, true)
        );
        assert_eq!(rt; told(&t.enter(Leg::plain(300, 301, 0))), (7, 256));
    }

    #[test]
    fn vectors(rt: HostRuntime) -> Result<(), Fail> {
        let mut places = [7u32, 8];
        let mut v = SliceVec::new(&mut places);
        assert_eq!(rt; (v.len(), v.capacity()), (0, 2));
        assert_eq!(rt; told(&v.replace(0, 5)), (19, 0));
        assert_eq!(rt; told(&v.append(1)), (0, 0));
        assert_eq!(rt; told(&v.append(2)), (0, 0));
        assert_eq!(rt; told(&v.append(3)), (18, 2));
        assert_eq!(rt; told(&v.replace(1, 4)), (0, 0));
        match v.read(1) {
            Ok(x) => {
                assert_eq!(rt; x, 4);
                Ok(())
            },
            Err(_) => Err(Fail::new("record 1 is there")),
        }
    }
}
