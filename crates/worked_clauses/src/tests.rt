// A saturation whose selected literals tie at an atom, a refutation of two clauses, and changes of them.
use crate::answers::{refutation_complaint, saturation_complaint, truths};
use crate::building::{Conclusion, Source, Worked};
use cert_check::Complaint;
use cert_values::GroundHint;
use std::test::Fail;

const INPUTS: &str = "cnf(one,axiom,p(X,a)|q(X)). cnf(two,axiom,~p(b,X)|s(X)).";

const MEMBERS: &str =
    "cnf(m1,plain,p(X,a)|q(X)). cnf(m2,plain,~p(b,X)|s(X)). cnf(m3,plain,p(b,a)|q(b)). cnf(m4,plain,~p(b,a)|s(a)).";

const ORIGINS: [Source<'static>; 4] = [
    Source::Input(1),
    Source::Input(2),
    Source::Inst(Conclusion {
        from: 1,
        place: 1,
        partner: 2,
        other: 1,
    }),
    Source::Inst(Conclusion {
        from: 2,
        place: 1,
        partner: 1,
        other: 1,
    }),
];

// The saturation of the two inputs with these members.
fn saturation(members: &str) -> Worked {
    Worked {
        inputs: INPUTS,
        axioms: "",
        members,
        origins: &ORIGINS,
        grounds: "",
        steps: "",
        hints: &[],
    }
}

#[test]
fn truth_where_weights_tie(rt: HostRuntime) -> Result<(), Fail> {
    let expected = [
        ("p(b,a)", false),
        ("p(c,a)", true),
        ("p(b,c)", false),
        ("s(a)", true),
    ];
    let worked = saturation(MEMBERS);
    for row in expected {
        assert_eq!(rt;
            truths(rt.alloc(), &worked, &[1, 1, 2, 2], row.0)?,
            Some([row.1, row.1])
        );
    }
    Ok(())
}

#[test]
fn saturations(rt: HostRuntime) -> Result<(), Fail> {
    let one = "cnf(m1,plain,p(X,a)|q(X)).";
    let two = "cnf(m1,plain,p(X,a)|q(X)). cnf(m2,plain,~p(b,X)|s(X)).";
    let wrong =
        "cnf(m1,plain,p(X,a)|q(X)). cnf(m2,plain,~p(b,X)|s(X)). cnf(m3,plain,p(b,a)|q(a)). cnf(m4,plain,~p(b,a)|s(a)).";
    let rows: [(&str, &[usize], Option<Complaint>); 6] = [
        (MEMBERS, &[1, 1, 2, 2], None),
        // An input has no member.
        (one, &[1], Some(Complaint::Input { k: 2 })),
        // A pair has no cover, and one is proper nowhere.
        (two, &[1, 1], Some(Complaint::Pair { left: 1, right: 2 })),
        (
            MEMBERS,
            &[1, 1, 1, 1],
            Some(Complaint::Pair { left: 3, right: 4 }),
        ),
        // A member is not concluded.
        (wrong, &[1, 1, 2, 2], Some(Complaint::Member { n: 3 })),
        // A place is past the end.
        (MEMBERS, &[3, 1, 2, 2], Some(Complaint::Place { n: 1 })),
    ];
    for row in rows {
        let complaint = saturation_complaint(rt.alloc(), &saturation(row.0), row.1)?;
        assert_eq!(rt; complaint, row.2);
    }
    Ok(())
}

// The refutation of `p(X)` and `~p(c)` with these ground clauses, steps and hints.
fn refutation<'a>(grounds: &'a str, steps: &'a str, hints: &'a [GroundHint]) -> Worked<'a> {
    Worked {
        inputs: "cnf(one,axiom,p(X)). cnf(two,axiom,~p(c)).",
        axioms: "",
        members: "cnf(m1,plain,p(X)). cnf(m2,plain,~p(c)). cnf(m3,plain,p(c)).",
        origins: &[
            Source::Input(1),
            Source::Input(2),
            Source::Inst(Conclusion {
                from: 1,
                place: 1,
                partner: 2,
                other: 1,
            }),
        ],
        grounds,
        steps,
        hints,
    }
}

const GROUNDS: &str = "cnf(g1,plain,p(bot_0)). cnf(g2,plain,~p(c)). cnf(g3,plain,p(c)).";

const STEP: &str = "cnf(r1,plain,$false).";

#[test]
fn refutations(rt: HostRuntime) -> Result<(), Fail> {
    let right = [GroundHint::Ground(2), GroundHint::Ground(3)];
    let wrong = [GroundHint::Ground(1), GroundHint::Ground(2)];
    let other = "cnf(g1,plain,p(a)). cnf(g2,plain,~p(c)). cnf(g3,plain,p(c)).";
    let rows: [(&str, &str, &[GroundHint], Option<Complaint>); 4] = [
        (GROUNDS, STEP, &right, None),
        // A step is not shown.
        (GROUNDS, STEP, &wrong, Some(Complaint::Step { n: 1 })),
        // A derivation is empty.
        (GROUNDS, "", &[], Some(Complaint::NotEmpty)),
        // A ground clause has another constant.
        (other, STEP, &right, Some(Complaint::Ground { n: 1 })),
    ];
    for row in rows {
        let complaint = refutation_complaint(rt.alloc(), &refutation(row.0, row.1, row.2), 0)?;
        assert_eq!(rt; complaint, row.3);
    }
    Ok(())
}

// The refutation of `a = b`, `p(a)` and `~p(b)` with these axioms.
fn with_equality(axioms: &str) -> Worked {
    Worked {
        inputs: "cnf(i1,axiom,a=b). cnf(i2,axiom,p(a)). cnf(i3,axiom,~p(b)).",
        axioms,
        members: "cnf(m1,plain,a=b). cnf(m2,plain,p(a)). cnf(m3,plain,~p(b)). cnf(m4,plain,X!=Y|~p(X)|p(Y)). cnf(m5,plain,a!=b|~p(a)|p(b)).",
        origins: &[
            Source::Input(1),
            Source::Input(2),
            Source::Input(3),
            Source::Input(7),
            Source::Inst(Conclusion {
                from: 4,
                place: 1,
                partner: 1,
                other: 1,
            }),
        ],
        grounds: "cnf(g1,plain,a=b). cnf(g2,plain,p(a)). cnf(g3,plain,~p(b)). cnf(g4,plain,bot_0!=bot_0|~p(bot_0)|p(bot_0)). cnf(g5,plain,a!=b|~p(a)|p(b)).",
        steps: STEP,
        hints: &[
            GroundHint::Ground(1),
            GroundHint::Ground(2),
            GroundHint::Ground(3),
            GroundHint::Ground(5),
        ],
    }
}

const AXIOMS: &str =
    "cnf(e1,axiom,X=X). cnf(e2,axiom,X!=Y|Y=X). cnf(e3,axiom,X!=Y|Y!=Z|X=Z). cnf(e4,axiom,X!=Y|~p(X)|p(Y)).";

// `p(X) | q(X)` and `~p(c)` have a model. A lemma that leaves out a literal is no member of the first format, where its ground
// clause would be taken for that of an input.
#[test]
fn lemmas_of_the_first_format(rt: HostRuntime) -> Result<(), Fail> {
    let worked = Worked {
        inputs: "cnf(one,axiom,p(X)|q(X)). cnf(two,axiom,~p(c)).",
        axioms: "",
        members: "cnf(m1,plain,p(X)|q(X)). cnf(m2,plain,~p(c)). cnf(m3,plain,$false).",
        origins: &[
            Source::Input(1),
            Source::Input(2),
            Source::Lemma {
                conclusion: Conclusion {
                    from: 1,
                    place: 1,
                    partner: 2,
                    other: 1,
                },
                keep: &[],
                premises: &[1, 2],
            },
        ],
        grounds: "cnf(g1,plain,p(bot_0)|q(bot_0)). cnf(g2,plain,~p(c)). cnf(g3,plain,$false).",
        steps: STEP,
        hints: &[GroundHint::Ground(3)],
    };
    assert_eq!(rt;
        refutation_complaint(rt.alloc(), &worked, 0)?,
        Some(Complaint::Member { n: 3 })
    );
    Ok(())
}

#[test]
fn refutations_with_equality(rt: HostRuntime) -> Result<(), Fail> {
    let rows = [
        (AXIOMS, 0, None),
        // An axiom is not there.
        ("", 0, Some(Complaint::Axiom { n: 1 })),
        // The constant has an argument.
        (AXIOMS, 1, Some(Complaint::Bot)),
    ];
    for row in rows {
        let complaint = refutation_complaint(rt.alloc(), &with_equality(row.0), row.1)?;
        assert_eq!(rt; complaint, row.2);
    }
    Ok(())
}
