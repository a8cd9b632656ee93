// An input whose atom, as a tree, has 2^64 leaves. What its terms share is opened once.
ghost use Rattle.std.specs.Prelude.{◌≡◌, All, IfOk};
ghost use Rattle.inst_logic.specs.declared.symbol.Kind.TheVariants.{Function};
ghost use Rattle.term_bank.specs.Forest.{AreFormed, IsTermIn};
ghost use Rattle.cert_values.specs.Wholes.{IsWholeClause};
ghost use Rattle.worked_clauses.specs.Shared.{IsAtomOf};

use crate::answers::complaint_of;
use cert_check::Complaint;
use cert_values::{Base, MemberList, Saturation};
use inst_logic::{Kind, Memory, Name, NameList, PlaceList, Signed, Sym};
use std::alloc::Global;
use std::test::Fail;
use term_bank::{Bank, IdClause, IdClauseList, TermId};

fn symbol(alloc: Global, kind: Kind, name: &[u8], arity: usize) -> Result<Sym, Memory>
    ensures kind { IfOk result (λ s. s.kind ≡ kind) }
    ensures arity { IfOk result (λ s. s.arity ≡ arity) }
{
    Ok(Sym {
        kind,
        name: Name::of(alloc, name)?,
        arity,
    })
}

// f(t,t)
fn twice(bank: &mut Bank, f: &Sym, t: TermId) -> Result<TermId, Memory>
    requires kind { f.now.kind ≡ Function }
    requires arity { f.now.arity ≡ 2 }
    requires formed { AreFormed bank.old }
    requires term { IsTermIn bank.old t }
    ensures formed { AreFormed bank.new }
    ensures term { IfOk result (IsTermIn bank.new) }
{
    bank.app(f, &[t, t])
}

// f(t,t), and then f of that twice, up to 64 levels.
fn doubled(bank: &mut Bank, f: &Sym, t: TermId) -> Result<TermId, Memory>
    requires kind { f.now.kind ≡ Function }
    requires arity { f.now.arity ≡ 2 }
    requires formed { AreFormed bank.old }
    requires term { IsTermIn bank.old t }
    ensures formed { AreFormed bank.new }
    ensures term { IfOk result (IsTermIn bank.new) }
{
    let mut term = t;
    for _ in 0..64 {
        term = twice(bank, f, term)?;
    }
    Ok(term)
}

// a
fn constant(alloc: Global, bank: &mut Bank) -> Result<TermId, Memory>
    requires { AreFormed bank.old }
    ensures formed { AreFormed bank.new }
    ensures term { IfOk result (IsTermIn bank.new) }
{
    let a = symbol(alloc, Kind::Function, b"a", 0)?;
    bank.app(&a, &[])
}

// p of the doubled term, where the leaves are a.
fn shared_atom(alloc: Global, bank: &mut Bank) -> Result<TermId, Memory>
    requires { AreFormed bank.old }
    ensures formed { AreFormed bank.new }
    ensures atom { IfOk result (IsAtomOf bank.new) }
{
    let f = symbol(alloc, Kind::Function, b"f", 2)?;
    let p = symbol(alloc, Kind::Predicate, b"p", 1)?;
    let leaf = constant(alloc, bank)?;
    let term = doubled(bank, &f, leaf)?;
    bank.app(&p, &[term])
}

fn shared_inputs(alloc: Global, bank: &mut Bank) -> Result<IdClauseList, Fail>
    requires { AreFormed bank.old }
    ensures formed { AreFormed bank.new }
    ensures inputs { IfOk result (All (IsWholeClause bank.new)) }
{
    let atom = shared_atom(alloc, bank)?;
    let mut clause = IdClause::new(alloc);
    clause.push(Signed {
        positive: true,
        atom,
    })?;
    let mut inputs = IdClauseList::new(alloc);
    inputs.push(clause)?;
    Ok(inputs)
}

// The first complaint about the saturation of that input without members.
fn shared_complaint(alloc: Global) -> Result<Option<Complaint>, Fail> {
    let names = NameList::new(alloc);
    let axioms = IdClauseList::new(alloc);
    let members = MemberList::new(alloc);
    let places = PlaceList::new(alloc);
    let mut bank = Bank::new(alloc);
    match shared_inputs(alloc, &mut bank) {
        Ok(inputs) => {
            let base = Base {
                bank,
                inputs,
                names,
                axioms,
                members,
            };
            complaint_of(alloc, Saturation { base, places })
        }
        Err(e) => Err(e),
    }
}

#[test]
fn what_is_shared_is_opened_once(rt: HostRuntime) -> Result<(), Fail> {
    assert_eq!(rt;
        shared_complaint(rt.alloc())?,
        Some(Complaint::Input { k: 1 })
    );
    Ok(())
}
