// What a caller knows of the two logics by their public contracts alone, and what they answer on examples.
#![tactic(auto)]

ghost use Rattle.std.specs.Prelude.{T, length};
ghost use Rattle.base.specs.Words.{Iff};
ghost use Rattle.logics.specs.El.{el, ElLimits};
ghost use Rattle.logics.specs.Entailment.{Askable, marked};
ghost use Rattle.logics.specs.Interpretation.{Entails};
ghost use Rattle.logics.specs.Links.{links, Leads, PointLimits};

use logics::{El, Links, Logic, Record};

/// Asks el of some concepts and roles. Yes is true in every interpretation, and no is not.
pub fn ask_el(
    concepts: u32,
    roles: u32,
    records: &[Record],
    marks: u64,
    goal: (u32, u32),
    area: &mut [u8],
) -> bool
    ensures { ElLimits concepts roles → Askable (el concepts roles) records.now marks goal (length area.old) → Iff (T result) (Entails (marked records.now marks) goal) }
{
    El::new(concepts, roles).is_ok_and(|logic| logic.follows(records, marks, goal, area))
}

/// Asks links between some points. Yes says that a chain of links leads there, and no that none does.
pub fn ask_links(
    points: u32,
    records: &[Record],
    marks: u64,
    goal: (u32, u32),
    area: &mut [u8],
) -> bool
    ensures { PointLimits points → Askable (links points) records.now marks goal (length area.old) → Iff (T result) (Leads (marked records.now marks) goal) }
{
    Links::new(points).is_ok_and(|logic| logic.follows(records, marks, goal, area))
}

#[cfg(test)]
mod tests {
    use logics::{El, Form, Links, Logic, LogicFault, Record, UnknownForm, take_goal, take_record};
    use std::process::Abort;
    use std::test::Fail;

    // Form, a, b and c of a record.
    type Row = (u16, u16, u16, u16);

    // A row that no logic takes.
    const NONE: Row = (9, 999, 999, 999);

    // What is asked, with the bits of the marked rows, and the answer.
    #[derive(Clone, Copy)]
    struct Case {
        name: &'static str,
        rows: [Row; 3],
        marks: u64,
        goal: (u32, u32),
        follows: bool,
    }

    const EL: [Case; 16] = [
        Case {
            name: "form 1",
            rows: [(1, 1, 2, 0), NONE, NONE],
            marks: 1,
            goal: (1, 2),
            follows: true,
        },
        Case {
            name: "form 1, turned round",
            rows: [(1, 1, 2, 0), NONE, NONE],
            marks: 1,
            goal: (2, 1),
            follows: false,
        },
        Case {
            name: "form 2",
            rows: [(1, 1, 2, 0), (2, 1, 2, 3), NONE],
            marks: 3,
            goal: (1, 3),
            follows: true,
        },
        Case {
            name: "form 2 with one concept",
            rows: [NONE, (2, 1, 2, 3), NONE],
            marks: 2,
            goal: (1, 3),
            follows: false,
        },
        Case {
            name: "forms 3 and 4",
            rows: [(3, 1, 0, 2), (4, 0, 2, 3), NONE],
            marks: 3,
            goal: (1, 3),
            follows: true,
        },
        Case {
            name: "form 3 alone",
            rows: [(3, 1, 0, 2), (4, 0, 2, 3), NONE],
            marks: 1,
            goal: (1, 3),
            follows: false,
        },
        Case {
            name: "form 4 alone",
            rows: [(3, 1, 0, 2), (4, 0, 2, 3), NONE],
            marks: 2,
            goal: (1, 3),
            follows: false,
        },
        Case {
            name: "another role",
            rows: [(3, 1, 1, 2), (4, 0, 2, 3), NONE],
            marks: 3,
            goal: (1, 3),
            follows: false,
        },
        Case {
            name: "a partner of its own kind",
            rows: [(3, 1, 0, 1), (4, 0, 1, 2), (4, 0, 2, 3)],
            marks: 7,
            goal: (1, 3),
            follows: true,
        },
        Case {
            name: "no more from it",
            rows: [(3, 1, 0, 1), (4, 0, 1, 2), (4, 0, 2, 3)],
            marks: 7,
            goal: (1, 4),
            follows: false,
        },
        Case {
            name: "in everything",
            rows: [NONE, NONE, NONE],
            marks: 0,
            goal: (5, 0),
            follows: true,
        },
        Case {
            name: "everything in one",
            rows: [NONE, NONE, NONE],
            marks: 0,
            goal: (0, 5),
            follows: false,
        },
        Case {
            name: "everything, on the left",
            rows: [(1, 0, 3, 0), NONE, NONE],
            marks: 1,
            goal: (5, 3),
            follows: true,
        },
        Case {
            name: "everything, as a partner",
            rows: [(3, 0, 2, 4), (4, 2, 0, 6), NONE],
            marks: 3,
            goal: (1, 6),
            follows: true,
        },
        Case {
            name: "the same concept",
            rows: [NONE, NONE, NONE],
            marks: 0,
            goal: (7, 7),
            follows: true,
        },
        Case {
            name: "a row that is not marked",
            rows: [NONE, NONE, (1, 1, 2, 0)],
            marks: 4,
            goal: (1, 2),
            follows: true,
        },
    ];

    const LINKS: [Case; 5] = [
        Case {
            name: "a chain",
            rows: [(5, 2, 3, 0), (5, 1, 2, 0), (5, 0, 1, 0)],
            marks: 7,
            goal: (0, 3),
            follows: true,
        },
        Case {
            name: "a chain, turned round",
            rows: [(5, 2, 3, 0), (5, 1, 2, 0), (5, 0, 1, 0)],
            marks: 7,
            goal: (3, 0),
            follows: false,
        },
        Case {
            name: "a chain with a gap",
            rows: [(5, 2, 3, 0), (5, 1, 2, 0), (5, 0, 1, 0)],
            marks: 5,
            goal: (0, 3),
            follows: false,
        },
        Case {
            name: "round a ring",
            rows: [(5, 2, 3, 0), (5, 3, 1, 0), (5, 1, 2, 0)],
            marks: 7,
            goal: (3, 2),
            follows: true,
        },
        Case {
            name: "the same point",
            rows: [NONE, NONE, NONE],
            marks: 0,
            goal: (63, 63),
            follows: true,
        },
    ];

    // What el cannot be asked.
    const DECLINED: [([Row; 3], u64, (u32, u32)); 4] = [
        ([(1, 1, 2, 0), NONE, NONE], 3, (1, 2)),
        ([(1, 1, 2, 0), NONE, NONE], 9, (1, 2)),
        ([(1, 1, 2, 0), NONE, NONE], 1, (1, 8)),
        ([(3, 1, 4, 2), NONE, NONE], 1, (1, 2)),
    ];

    fn axiom((form, a, b, c): Row) -> Record {
        Record { form, a, b, c }
    }

    // What a logic that works in 64 bytes answers: they come in as 255s, and are zero afterwards.
    fn ask<L: Logic>(
        rt: &impl Abort,
        logic: &L,
        records: &[Record],
        marks: u64,
        goal: (u32, u32),
    ) -> bool {
        let mut area = [255u8; 65];
        let answer = logic.follows(records, marks, goal, &mut area);
        let mut cleared = [0u8; 65];
        cleared[64] = 255;
        assert!(rt;
            area == cleared,
            "64 bytes are zero, and the next is untouched"
        );
        answer
    }

    // Is the question declined, with the area untouched?
    fn declined<L: Logic>(logic: &L, records: &[Record], marks: u64, goal: (u32, u32)) -> bool {
        let mut area = [255u8; 65];
        let answer = logic.follows(records, marks, goal, &mut area);
        !answer && area == [255u8; 65]
    }

    #[test]
    fn el_answers(rt: HostRuntime) -> Result<(), Fail> {
        let el = El::new(8, 4)?;
        for case in EL {
            assert_eq!(rt;
                ask(&rt, &el, &case.rows.map(axiom), case.marks, case.goal),
                case.follows,
                "{}",
                case.name
            );
        }
        Ok(())
    }

    #[test]
    fn links_answers(rt: HostRuntime) -> Result<(), Fail> {
        let links = Links::new(64)?;
        for case in LINKS {
            assert_eq!(rt;
                ask(&rt, &links, &case.rows.map(axiom), case.marks, case.goal),
                case.follows,
                "{}",
                case.name
            );
        }
        assert!(rt; declined(&links, &[axiom((5, 0, 1, 1))], 1, (0, 1)));
        Ok(())
    }

    #[test]
    fn el_declines(rt: HostRuntime) -> Result<(), Fail> {
        let el = El::new(8, 4)?;
        for (rows, marks, goal) in DECLINED {
            assert!(rt; declined(&el, &rows.map(axiom), marks, goal));
        }
        let larger = El::new(9, 4)?;
        assert!(rt; declined(&larger, &[], 0, (1, 1)), "a short area");
        Ok(())
    }

    #[test]
    fn many_records(rt: HostRuntime) -> Result<(), Fail> {
        let el = El::new(8, 4)?;
        let link = axiom((1, 1, 2, 0));
        let mut many = [axiom(NONE); 64];
        many[63] = link;
        assert!(rt; ask(&rt, &el, &many, 1 << 63, (1, 2)));
        assert!(rt; ask(&rt, &el, &[link; 64], u64::MAX, (1, 2)));
        assert!(rt; declined(&el, &[link; 65], 1, (1, 2)));
        Ok(())
    }

    #[test]
    fn limits(rt: HostRuntime) -> Result<(), Fail> {
        assert_eq!(rt; El::new(128, 32)?.work_bytes(), 16384);
        assert_eq!(rt; El::new(1, 0)?.work_bytes(), 1);
        assert_eq!(rt; Links::new(128)?.work_bytes(), 128);
        assert!(rt; El::new(0, 0).is_err() && El::new(129, 0).is_err() && El::new(1, 33).is_err());
        assert!(rt; Links::new(0).is_err() && Links::new(129).is_err());
        Ok(())
    }

    #[test]
    fn forms(rt: HostRuntime) {
        assert_eq!(rt; Form::try_from(4), Ok(Form::Source));
        assert_eq!(rt; Form::try_from(9), Err(UnknownForm(9)));
        assert_eq!(rt; u16::from(Form::Both), 2);
    }

    #[test]
    fn refusals(rt: HostRuntime) -> Result<(), Fail> {
        let el = El::new(8, 0)?;
        assert_eq!(rt;
            take_record(&el, axiom((3, 1, 0, 1))),
            Err(LogicFault::RecordNotTaken)
        );
        assert_eq!(rt; take_goal(&el, (7, 8)), Err(LogicFault::GoalNotTaken));
        take_record(&el, axiom((2, 1, 0, 7)))?;
        take_goal(&el, (0, 7))?;
        assert_eq!(rt; LogicFault::RecordNotTaken.number(), 9);
        Ok(())
    }
}
