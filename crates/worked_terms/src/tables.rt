// Tables of texts, and what is answered of their clauses. A table is one text and no array, since a function that uses an array is
// proved anew for each of its entries. The bank and the clauses stay in functions with one way out.
ghost use Rattle.std.specs.Prelude.{All};
ghost use Rattle.term_bank.specs.Forest.{IsClauseOf};

use crate::building::clauses_in;
use crate::{abstractions, clauses, conclusions, indexes, terms, unification};
use inst_logic::Memory;
use std::alloc::Global;
use std::test::Fail;
use term_bank::{Bank, IdClauseList};
use tptp_write::push_bytes;

/// What is asked of a text.
#[derive(Clone, Copy)]
enum Question {
    Constant,
    Term,
    Sharing,
    Clause,
    Subsumption,
    Unifier,
    Match,
    Binding,
    Instance,
    Conclusion,
    Numbers,
    Abstraction,
}

/// Puts the reply at the end of the answer.
pub fn push_reply(answer: &mut Vec<u8>, reply: Option<bool>) -> Result<(), Memory> {
    match reply {
        Some(true) => push_bytes(answer, b"yes"),
        Some(false) => push_bytes(answer, b"no"),
        None => push_bytes(answer, b"nothing"),
    }
}

// Puts what is answered of the clauses at the end.
fn push_found(
    alloc: Global,
    question: Question,
    answer: &mut Vec<u8>,
    bank: &mut Bank,
    clauses: &IdClauseList,
) -> Result<(), Fail>
    requires { All (IsClauseOf bank.old) clauses.now }
{
    match question {
        Question::Clause => Ok(clauses::push_facts(answer, bank, clauses)?),
        Question::Subsumption => Ok(push_reply(answer, clauses::subsumed(alloc, bank, clauses)?)?),
        Question::Unifier => Ok(unification::push_unifier(alloc, answer, bank, clauses)?),
        Question::Match => Ok(push_reply(answer, unification::matched(alloc, bank, clauses)?)?),
        Question::Binding => Ok(push_reply(answer, unification::bound(alloc, bank, clauses)?)?),
        Question::Instance => conclusions::push_instance(alloc, answer, bank, clauses),
        Question::Conclusion => Ok(push_reply(
            answer,
            conclusions::concludes(alloc, bank, clauses)?,
        )?),
        Question::Numbers => abstractions::push_numbers(alloc, answer, bank, clauses),
        Question::Abstraction => abstractions::push_abstraction(alloc, answer, bank, clauses),
        _ => Ok(()),
    }
}

fn push_in(
    alloc: Global,
    question: Question,
    answer: &mut Vec<u8>,
    bank: &mut Bank,
    text: &str,
) -> Result<(), Fail> {
    let clauses = clauses_in(alloc, bank, text)?;
    push_found(alloc, question, answer, bank, &clauses)
}

fn push_by(
    alloc: Global,
    question: Question,
    answer: &mut Vec<u8>,
    bank: &mut Bank,
    text: &str,
) -> Result<(), Fail> {
    match question {
        Question::Constant => abstractions::push_constant(alloc, answer, text),
        Question::Term => terms::push_term(alloc, answer, bank, text),
        Question::Sharing => terms::push_sharing(alloc, answer, bank, text),
        _ => push_in(alloc, question, answer, bank, text),
    }
}

// Puts what is answered of the text at the end.
fn push_answer(
    alloc: Global,
    question: Question,
    answer: &mut Vec<u8>,
    text: &str,
) -> Result<(), Fail> {
    let mut bank = Bank::new(alloc);
    push_by(alloc, question, answer, &mut bank, text)
}

fn is_answered_by(
    alloc: Global,
    question: Question,
    answer: &mut Vec<u8>,
    text: &str,
    wanted: &str,
) -> Result<bool, Fail> {
    push_answer(alloc, question, answer, text)?;
    Ok(answer.as_slice() == wanted.as_bytes())
}

fn is_answered(alloc: Global, question: Question, text: &str, wanted: &str) -> Result<bool, Fail> {
    let mut answer = Vec::new(alloc);
    is_answered_by(alloc, question, &mut answer, text, wanted)
}

fn is_right(alloc: Global, question: Question, row: &str) -> Result<bool, Fail> {
    match row.split_once("@") {
        Some((text, wanted)) => is_answered(alloc, question, text, wanted),
        None => Ok(false),
    }
}

// The place of the first row that is not answered so, from 1.
fn first_wrong(alloc: Global, question: Question, table: &str) -> Result<Option<usize>, Fail> {
    for (i, row) in table.split('#').enumerate() {
        if i > 0 && !is_right(alloc, question, row)? {
            return Ok(Some(i));
        }
    }
    Ok(None)
}

// The place of the first wrong row of each table. In a table a row begins with `#`, and behind the text stands `@` and the answer.
fn wrong_rows(alloc: Global) -> Result<[Option<usize>; 12], Fail> {
    Ok([
        first_wrong(alloc, Question::Constant, abstractions::CONSTANTS)?,
        first_wrong(alloc, Question::Term, terms::TERMS)?,
        first_wrong(alloc, Question::Sharing, terms::SHARING)?,
        first_wrong(alloc, Question::Clause, clauses::CLAUSES)?,
        first_wrong(alloc, Question::Subsumption, clauses::SUBSUMPTION)?,
        first_wrong(alloc, Question::Unifier, unification::UNIFIERS)?,
        first_wrong(alloc, Question::Match, unification::MATCHES)?,
        first_wrong(alloc, Question::Binding, unification::BINDINGS)?,
        first_wrong(alloc, Question::Instance, conclusions::INSTANCES)?,
        first_wrong(alloc, Question::Conclusion, conclusions::CONCLUSIONS)?,
        first_wrong(alloc, Question::Numbers, abstractions::NUMBERS)?,
        first_wrong(alloc, Question::Abstraction, abstractions::ABSTRACTIONS)?,
    ])
}

// Two atoms unify whose unifier doubles a term at each of 64 steps.
fn is_doubled(alloc: Global) -> Result<bool, Fail> {
    let text = unification::doubling(alloc)?;
    is_answered(
        alloc,
        Question::Unifier,
        text.as_str(),
        "proper yes yes, sizes 18446744073709551615 18446744073709551615",
    )
}

#[test]
fn texts_have_these_answers(rt: HostRuntime) -> Result<(), Fail> {
    let alloc = rt.alloc();
    assert_eq!(rt;
        (
            wrong_rows(alloc)?,
            is_doubled(alloc)?,
            terms::is_applied_alike(alloc)?
        ),
        ([None; 12], true, true)
    );
    assert_eq!(rt; indexes::are_answered(alloc)?, [true; 6]);
    assert_eq!(rt; indexes::begin(alloc)?, [true, false]);
    Ok(())
}
