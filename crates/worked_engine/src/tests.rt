// Problems that each solver decides with each index, and runs that meet a refusing index.
use crate::engines::{Engine, row_told};
use crate::outcomes::{Ending, Row, as_wanted};
use std::alloc::Global;
use std::process::Abort;
use std::test::Fail;

// The budget where none is asked for.
const BUDGET: u32 = 10_000_000;

const INSTANCE: &str = "cnf(one,axiom,p(X)). cnf(two,axiom,~p(c)).";

const CHAIN: &str = "cnf(a,axiom,p(a)). cnf(b,axiom,~p(X)|p(f(X))). cnf(c,axiom,~p(f(f(a)))).";

const NESTED: &str = "cnf(a,axiom,p(f(X))). cnf(b,axiom,~p(f(f(c)))).";

const PART: &str =
    "cnf(a,axiom,q(X)|p(X)). cnf(b,axiom,~p(a)). cnf(c,axiom,r|q(a)). cnf(d,axiom,~r|q(a)).";

const REFUTED_PART: &str = "
cnf(a,axiom,~p(a)). cnf(b,axiom,r|q(a)). cnf(c,axiom,~r|q(a)).
cnf(d,axiom,~q(Y)|s). cnf(e,axiom,~s). cnf(f,axiom,q(X)|p(X)).
";

const EMPTY_PART: &str = "cnf(a,axiom,~p(c)). cnf(b,axiom,~p(d)). cnf(c,axiom,p(X)).";

const MANSION: &str = "
cnf(lives_a,axiom,lives(agatha)). cnf(lives_b,axiom,lives(butler)). cnf(lives_c,axiom,lives(charles)).
cnf(only_three,axiom,~lives(X)|X=agatha|X=butler|X=charles).
cnf(killer_lives,hypothesis,lives(killer)). cnf(killer_killed,hypothesis,killed(killer,agatha)).
cnf(killer_hates,axiom,~killed(X,Y)|hates(X,Y)). cnf(not_richer,axiom,~killed(X,Y)|~richer(X,Y)).
cnf(charles_hates,axiom,~hates(agatha,X)|~hates(charles,X)).
cnf(agatha_hates_agatha,axiom,hates(agatha,agatha)). cnf(agatha_hates_charles,axiom,hates(agatha,charles)).
cnf(butler_hates_poor,axiom,~lives(X)|richer(X,agatha)|hates(butler,X)).
cnf(butler_copies,axiom,~hates(agatha,X)|hates(butler,X)).
cnf(none_hates_all,axiom,~hates(X,agatha)|~hates(X,butler)|~hates(X,charles)).
cnf(not_suicide,negated_conjecture,~killed(agatha,agatha)).
";

// A problem that is refuted.
fn refuted<'a>(
    text: &'a str,
    budget: u32,
    count: Option<usize>,
    members: &'a str,
    (grounds, sources): (&'a str, Option<&'a [usize]>),
) -> Row<'a> {
    Row {
        text,
        budget,
        ending: Ending::Refuted,
        count,
        members,
        grounds,
        sources,
        places: &[],
    }
}

// A problem that is saturated.
fn saturated<'a>(
    text: &'a str,
    count: Option<usize>,
    members: &'a str,
    places: &'a [usize],
) -> Row<'a> {
    Row {
        text,
        budget: BUDGET,
        ending: Ending::Saturated,
        count,
        members,
        grounds: "",
        sources: None,
        places,
    }
}

// A problem whose least conclusion that did not fit has four symbols, where none was appended for a budget of three.
fn stopped(text: &str, count: usize) -> Row {
    Row {
        text,
        budget: 3,
        ending: Ending::OutOfBudget { left: 3, wanted: 4 },
        count: Some(count),
        members: text,
        grounds: "",
        sources: None,
        places: &[],
    }
}

fn rows() -> [Row<'static>; 17] {
    [
        // No clause, and the empty one.
        saturated("", Some(0), "", &[]),
        refuted(
            "cnf(a,axiom,$false).",
            BUDGET,
            Some(1),
            "cnf(m1,plain,$false).",
            ("cnf(g1,plain,$false).", Some(&[1])),
        ),
        // An instance of one clause is appended, with or without a budget.
        refuted(
            INSTANCE,
            BUDGET,
            Some(3),
            "cnf(m1,plain,p(X)). cnf(m2,plain,~p(c)). cnf(m3,plain,p(c)).",
            (
                "cnf(g1,plain,p(bot_0)). cnf(g2,plain,~p(c)). cnf(g3,plain,p(c)).",
                Some(&[1, 2, 1]),
            ),
        ),
        refuted(
            INSTANCE,
            0,
            Some(3),
            "cnf(m1,plain,p(X)). cnf(m2,plain,~p(c)). cnf(m3,plain,p(c)).",
            (
                "cnf(g1,plain,p(bot_0)). cnf(g2,plain,~p(c)). cnf(g3,plain,p(c)).",
                Some(&[1, 2, 1]),
            ),
        ),
        // The abstractions are refuted at once.
        refuted(
            "cnf(a,axiom,p(X,X)). cnf(b,axiom,~p(Y,Z)).",
            BUDGET,
            Some(2),
            "cnf(m1,plain,p(X,X)). cnf(m2,plain,~p(X,Y)).",
            (
                "cnf(g1,plain,p(bot_0,bot_0)). cnf(g2,plain,~p(bot_0,bot_0)).",
                Some(&[1, 2]),
            ),
        ),
        // The name of the constant is that of no symbol.
        refuted(
            "cnf(a,axiom,bot_0(X)). cnf(b,axiom,~bot_0(Y)).",
            BUDGET,
            Some(2),
            "cnf(m1,plain,bot_0(X)). cnf(m2,plain,~bot_0(X)).",
            (
                "cnf(g1,plain,bot_0(bot_1)). cnf(g2,plain,~bot_0(bot_1)).",
                Some(&[1, 2]),
            ),
        ),
        saturated("cnf(a,axiom,p(X)|q(X)). cnf(b,axiom,~p(a)).", None, "", &[]),
        // Instances of instances.
        refuted(
            CHAIN,
            BUDGET,
            None,
            "cnf(m,plain,~p(a)|p(f(a))). cnf(m,plain,~p(f(a))|p(f(f(a)))).",
            (
                "cnf(g,plain,~p(a)|p(f(a))). cnf(g,plain,~p(f(a))|p(f(f(a)))).",
                None,
            ),
        ),
        // A conclusion that fits exactly, and that does not fit.
        refuted(
            NESTED,
            4,
            Some(3),
            "cnf(m3,plain,p(f(f(c)))).",
            ("cnf(g,plain,p(f(f(c)))).", Some(&[1, 2, 1])),
        ),
        stopped(NESTED, 2),
        stopped(
            "cnf(a,axiom,p(f(X))). cnf(b,axiom,~p(f(f(c)))). cnf(d,axiom,~p(f(g(c)))).",
            3,
        ),
        // An axiom of equality, and its instance.
        refuted(
            "cnf(a,axiom,a=b). cnf(b,axiom,p(a)). cnf(c,axiom,~p(b)).",
            BUDGET,
            None,
            "cnf(m,plain,X!=Y|~p(X)|p(Y)). cnf(m,plain,a!=b|~p(a)|p(b)).",
            ("cnf(g,plain,a!=b|~p(a)|p(b)).", None),
        ),
        // The selected literals are the only ones that can be true.
        saturated(
            "cnf(a,axiom,p(X)|~q(X)). cnf(b,axiom,q(Y)).",
            Some(2),
            "cnf(m1,plain,p(X)|~q(X)). cnf(m2,plain,q(X)).",
            &[1, 1],
        ),
        refuted(MANSION, 0, None, "", ("", None)),
        // The entries imply a part of a conclusion, which is appended in its place. It covers the conclusion.
        saturated(PART, Some(5), "cnf(m5,plain,q(a)).", &[2, 1]),
        // Ground lines are unrolled from the premises of the part, and not from the conclusion.
        refuted(
            REFUTED_PART,
            BUDGET,
            Some(8),
            "cnf(m7,plain,q(a)). cnf(m8,plain,~q(a)|s).",
            (
                "cnf(g,plain,q(bot_0)|p(bot_0)). cnf(g,plain,~q(bot_0)|s). cnf(g,plain,~q(a)|s).",
                Some(&[1, 2, 3, 4, 5, 6, 4]),
            ),
        ),
        // Two entries exclude each other when the second conclusion comes, so its empty part is appended.
        refuted(
            EMPTY_PART,
            BUDGET,
            Some(5),
            "cnf(m5,plain,$false).",
            ("cnf(g,plain,p(bot_0)).", Some(&[1, 2, 3, 3])),
        ),
    ]
}

// Runs each row.
fn check_rows(rt: &impl Abort, alloc: Global, engine: Engine) -> Result<(), Fail> {
    for row in &rows() {
        let text = row.text;
        assert_eq!(rt;
            row_told(alloc, row, engine)?,
            as_wanted(row.ending),
            "of {text}"
        );
    }
    Ok(())
}

#[test]
fn plain_solver_and_lists(rt: HostRuntime) -> Result<(), Fail> {
    check_rows(&rt, rt.alloc(), Engine::PlainRows)
}

#[test]
fn learning_solver_and_trees(rt: HostRuntime) -> Result<(), Fail> {
    check_rows(&rt, rt.alloc(), Engine::CdclTree)
}

// Where each predicate can have one value, and the solver is told them, nothing is inferred.
#[test]
fn first_values_are_tried(rt: HostRuntime) -> Result<(), Fail> {
    let rows = [
        saturated(PART, Some(4), "", &[1]),
        refuted(CHAIN, BUDGET, None, "", ("", None)),
        refuted(INSTANCE, 0, Some(3), "", ("", None)),
        saturated("cnf(a,axiom,r|q). cnf(b,axiom,~q).", Some(2), "", &[1, 1]),
    ];
    for row in &rows {
        let engine = Engine::FirstValues { most_entries: None };
        let told = row_told(rt.alloc(), row, engine)?;
        assert_eq!(rt; told, as_wanted(row.ending), "of {}", row.text);
    }
    Ok(())
}

// A run that has two entries is given up where it may have one. Where it may have two it goes on, and its third refutes it.
#[test]
fn runs_are_given_up(rt: HostRuntime) -> Result<(), Fail> {
    let row = refuted(INSTANCE, 0, Some(3), "", ("", None));
    for (most, ending) in [(1, Ending::GivenUp), (2, Ending::Refuted)] {
        let engine = Engine::FirstValues {
            most_entries: Some(most),
        };
        assert_eq!(rt; row_told(rt.alloc(), &row, engine)?, as_wanted(ending));
    }
    Ok(())
}

// An engine that scans its entries in place of asking an index does not meet it.
#[test]
fn indexes_are_asked(rt: HostRuntime) -> Result<(), Fail> {
    let row = refuted(CHAIN, BUDGET, None, "", ("", None));
    let expected = [
        (false, false, Ending::Refuted),
        (true, false, Ending::Memory),
        (false, true, Ending::Memory),
    ];
    for (partners, first, ending) in expected {
        let engine = Engine::Refusing { partners, first };
        assert_eq!(rt; row_told(rt.alloc(), &row, engine)?, as_wanted(ending));
    }
    Ok(())
}
