// The unrolled list of `q(X0)`, which `p(X0) | q(X0)` and `~ p(X0)` imply.
ghost use Rattle.std.specs.Prelude.{◌≡◌, [], ◌∷◌, ◌++◌, length, map, IfOk, OnOk};
ghost use Rattle.inst_logic.specs.Tree.{var, app, of_list};
ghost use Rattle.inst_logic.specs.Examples.{p, q, constant_bot};
ghost use Rattle.term_bank.specs.Forest.{AreIds, Extends, IsAt, tree_at};
ghost use Rattle.worked_lemmas.specs.Entries.{implied_by_two};

use global_subs::{Grounded, How, Made, MadeList, unroll};
use inst_logic::{Kind, Memory, Name, NumberList, Sym};
use std::alloc::Global;
use term_bank::{Bank, IdClause, IdLiteral, TermId, TermIdList};

// The ids of `X0`, `p(X0)`, `q(X0)` and `bot_0`.
#[derive(Drop)]
struct Ids {
    variable: TermId,
    p: TermId,
    q: TermId,
    constant: TermId,
}

// The symbol of this name with these arguments.
fn applied(
    alloc: Global,
    bank: &mut Bank,
    kind: Kind,
    name: &[u8],
    args: &[TermId],
) -> Result<TermId, Memory>
    requires { AreIds bank.old args.now }
    ensures extends { Extends bank.old bank.new }
    ensures at { IfOk result (λ id. IsAt bank.new id (app (record { kind = kind; name = name.now; arity = length args.now }) (of_list (map (tree_at bank.old) args.now)))) }
{
    let sym = Sym {
        kind,
        name: Name::of(alloc, name)?,
        arity: args.len(),
    };
    bank.app(&sym, args)
}

fn ids_in(alloc: Global, bank: &mut Bank) -> Result<Ids, Memory>
    ensures variable { IfOk result (λ ids. IsAt bank.new ids.variable (var 0)) }
    ensures p { IfOk result (λ ids. IsAt bank.new ids.p (p (var 0))) }
    ensures q { IfOk result (λ ids. IsAt bank.new ids.q (q (var 0))) }
    ensures constant { IfOk result (λ ids. IsAt bank.new ids.constant constant_bot) }
{
    let variable = bank.var(0)?;
    let p = applied(alloc, bank, Kind::Predicate, b"p", &[variable])?;
    let q = applied(alloc, bank, Kind::Predicate, b"q", &[variable])?;
    let constant = applied(alloc, bank, Kind::Function, b"bot_0", &[])?;
    Ok(Ids {
        variable,
        p,
        q,
        constant,
    })
}

// Adds an entry with these literals.
fn add_entry(
    alloc: Global,
    made: &mut MadeList,
    literals: &[IdLiteral],
    how: How,
) -> Result<(), Memory>
    ensures { OnOk result (made.new ≡ made.old ++ record { clause = literals.now; how = how } ∷ []) }
{
    let clause = IdClause::from(Vec::from_slice(alloc, literals)?);
    made.push(Made { clause, how })?;
    Ok(())
}

// The three entries.
fn made_of(alloc: Global, ids: &Ids) -> Result<MadeList, Memory>
    ensures { IfOk result (λ made. made ≡ implied_by_two ids.now.variable ids.now.p ids.now.q) }
{
    let p = IdLiteral {
        positive: true,
        atom: ids.p,
    };
    let not_p = IdLiteral {
        positive: false,
        atom: ids.p,
    };
    let q = IdLiteral {
        positive: true,
        atom: ids.q,
    };
    let lemma = How::Lemma {
        terms: TermIdList::from(Vec::from_slice(alloc, &[ids.variable])?),
        premises: NumberList::from(Vec::from_slice(alloc, &[1, 2])?),
    };
    let mut made = MadeList::new(alloc);
    add_entry(alloc, &mut made, &[p, q], How::Given(1))?;
    add_entry(alloc, &mut made, &[not_p], How::Given(2))?;
    add_entry(alloc, &mut made, &[q], lemma)?;
    Ok(made)
}

// Whether it is the instance of this input by the one term.
fn is_instance(item: &Grounded, input: usize, term: TermId) -> bool {
    item.input == input && item.terms.as_slice() == [term].as_slice()
}

// Whether these are the two input clauses by the one term, in order.
fn are_both(items: &[Grounded], term: TermId) -> bool {
    match items {
        [first, second] => is_instance(first, 1, term) && is_instance(second, 2, term),
        _ => false,
    }
}

fn unrolls_in(alloc: Global, bank: &mut Bank) -> Result<bool, Memory> {
    let ids = ids_in(alloc, bank)?;
    let constant = ids.constant;
    let made = made_of(alloc, &ids)?;
    let list = unroll(alloc, bank, constant, &made, 3)?;
    Ok(are_both(list.as_slice(), constant))
}

// Whether the third entry unrolls to the first two, with `bot_0` for their variable.
pub fn unrolls_to_premises(alloc: Global) -> Result<bool, Memory> {
    let mut bank = Bank::new(alloc);
    unrolls_in(alloc, &mut bank)
}
