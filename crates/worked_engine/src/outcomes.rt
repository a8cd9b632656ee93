// What an outcome says: how the run ended, and whether its certificate has the clauses that are wanted.
use crate::problems::problem_of;
use cert_values::{Base, GroundLineList, MemberList, Refutation, Saturation};
use inst_logic::{ClauseList, Memory};
use instgen_loop::{Journal, Outcome};
use std::alloc::Global;
use std::test::Fail;
use term_bank::{Bank, IdClause};

// How a run ends.
#[derive(Clone, Copy, Debug, PartialEq, Eq)]
pub enum Ending {
    Refuted,
    Saturated,
    OutOfBudget { left: u64, wanted: u64 },
    GivenUp,
    Memory,
}

// A problem, the budget, how the run ends, and how many members there are where that is fixed. The clauses of the two texts are
// among the members and among the ground lines, the sources are the inputs and axioms of all ground lines where these are fixed,
// and the places are those of the first members.
#[derive(Clone, Copy)]
pub struct Row<'a> {
    pub text: &'a str,
    pub budget: u32,
    pub ending: Ending,
    pub count: Option<usize>,
    pub members: &'a str,
    pub grounds: &'a str,
    pub sources: Option<&'a [usize]>,
    pub places: &'a [usize],
}

// How a run ended, and whether the members, the ground lines and the places are as they are wanted.
#[derive(Clone, Copy, Debug, PartialEq, Eq)]
pub struct Told {
    pub ending: Ending,
    pub members: bool,
    pub grounds: bool,
    pub places: bool,
}

fn is_member(members: &MemberList, clause: &IdClause) -> bool {
    for member in members.as_slice() {
        if member.clause.as_slice() == clause.as_slice() {
            return true;
        }
    }
    false
}

// Whether all the clauses are members.
fn are_members(bank: &mut Bank, members: &MemberList, wanted: &ClauseList) -> Result<bool, Memory> {
    let mut all = true;
    for clause in wanted.as_slice() {
        let ids = bank.clause(clause)?;
        all &= is_member(members, &ids);
    }
    Ok(all)
}

fn is_listed(lines: &GroundLineList, clause: &IdClause) -> bool {
    for line in lines.as_slice() {
        if line.clause.as_slice() == clause.as_slice() {
            return true;
        }
    }
    false
}

// Whether each of the clauses is that of a ground line.
fn are_listed(
    bank: &mut Bank,
    lines: &GroundLineList,
    wanted: &ClauseList,
) -> Result<bool, Memory> {
    let mut all = true;
    for clause in wanted.as_slice() {
        let ids = bank.clause(clause)?;
        all &= is_listed(lines, &ids);
    }
    Ok(all)
}

// Whether the ground lines are of these inputs and axioms, one for each number.
fn are_from(lines: &GroundLineList, sources: &[usize]) -> bool {
    if lines.len() != sources.len() {
        return false;
    }
    for (line, source) in lines.as_slice().iter().zip(sources) {
        if line.input != *source {
            return false;
        }
    }
    true
}

// Whether the base has the members of the row, and as many as are wanted.
fn has_members(alloc: Global, base: &mut Base, row: &Row) -> Result<bool, Fail> {
    let wanted = problem_of(alloc, row.members)?;
    let all = are_members(&mut base.bank, &base.members, &wanted.clauses)?;
    Ok(all && row.count.unwrap_or(base.members.len()) == base.members.len())
}

fn has_grounds(alloc: Global, cert: &mut Refutation, row: &Row) -> Result<bool, Fail> {
    let wanted = problem_of(alloc, row.grounds)?;
    let listed = are_listed(&mut cert.base.bank, &cert.grounds, &wanted.clauses)?;
    Ok(
        listed
            && row
                .sources
                .is_none_or(|sources| are_from(&cert.grounds, sources)),
    )
}

fn has_places(cert: &Saturation, row: &Row) -> bool {
    let count = row.places.len();
    cert.places.as_slice().get(..count) == Some(row.places)
}

fn of_refutation(alloc: Global, cert: &mut Refutation, row: &Row) -> Result<Told, Fail> {
    let members = has_members(alloc, &mut cert.base, row)?;
    let grounds = has_grounds(alloc, cert, row)?;
    Ok(Told {
        ending: Ending::Refuted,
        members,
        grounds,
        places: true,
    })
}

fn of_saturation(
    alloc: Global,
    cert: &mut Saturation,
    row: &Row,
    ending: Ending,
) -> Result<Told, Fail> {
    let members = has_members(alloc, &mut cert.base, row)?;
    let places = has_places(cert, row);
    Ok(Told {
        ending,
        members,
        grounds: true,
        places,
    })
}

// The journal goes with the certificate, so that one function lets both go.
fn tell_refutation(
    alloc: Global,
    mut cert: Refutation,
    _journal: Journal,
    row: &Row,
) -> Result<Told, Fail> {
    of_refutation(alloc, &mut cert, row)
}

fn tell_saturation(
    alloc: Global,
    mut cert: Saturation,
    _journal: Journal,
    row: &Row,
    ending: Ending,
) -> Result<Told, Fail> {
    of_saturation(alloc, &mut cert, row, ending)
}

/// What is told of a run that ends so, where all that is told beside is as it is wanted.
pub fn as_wanted(ending: Ending) -> Told {
    Told {
        ending,
        members: true,
        grounds: true,
        places: true,
    }
}

// What the answer of a run says of the row.
pub fn tell(alloc: Global, answer: Result<Outcome, Memory>, row: &Row) -> Result<Told, Fail> {
    match answer {
        Ok(Outcome::Refuted { cert, journal }) => tell_refutation(alloc, cert, journal, row),
        Ok(Outcome::Saturated { cert, journal }) => {
            tell_saturation(alloc, cert, journal, row, Ending::Saturated)
        }
        Ok(
            Outcome::OutOfBudget {
                left,
                wanted,
                state,
                journal,
            },
        ) => {
            let ending = Ending::OutOfBudget { left, wanted };
            tell_saturation(alloc, state, journal, row, ending)
        }
        Err(Memory) => Ok(as_wanted(Ending::Memory)),
    }
}

/// What is told of a run that may be given up.
pub fn tell_or_given_up(
    alloc: Global,
    answer: Result<Option<Outcome>, Memory>,
    row: &Row,
) -> Result<Told, Fail> {
    match answer {
        Ok(Some(outcome)) => tell(alloc, Ok(outcome), row),
        Ok(None) => Ok(as_wanted(Ending::GivenUp)),
        Err(Memory) => tell(alloc, Err(Memory), row),
    }
}
