// What a run leaves to a certificate, and the base that is made of it. The run is gone by then, so that its memory serves for the
// certificate.
ghost use Rattle.std.specs.Prelude.{◌≡◌, map, IfOk};
ghost use Rattle.instgen_loop.specs.Refuting.{member_of, remains_of, base_from};

use crate::start::Given;
use cert_values::{Base, Member, MemberList};
use inst_logic::{Memory, NameList, Problem};
use instgen_run::{Origins, Run};
use prop_logic::Solver;
use std::alloc::Global;
use std::mem::replace;
use term_bank::Bank;
use term_index::PartnerIndex;

/// What a run leaves to a certificate: its bank, its entries, and what it was given.
#[derive(Drop)]
pub struct Remains {
    pub bank: Bank,
    pub clauses: Origins,
    pub given: Given,
}

/// Takes the bank and the entries of the run.
pub fn hand_over<S: Solver, I: PartnerIndex>(
    alloc: Global,
    run: &mut Run<S, I>,
    given: Given,
) -> Remains
    ensures remains { result ≡ remains_of run.old given }
    ensures log { run.new.log ≡ run.old.log }
{
    Remains {
        bank: replace(&mut run.entries.bank, Bank::new(alloc)),
        clauses: replace(&mut run.entries.clauses, Origins::new(alloc)),
        given,
    }
}

// The clauses with their origins as members, in their order.
fn members_of(alloc: Global, clauses: Origins) -> Result<MemberList, Memory>
    ensures { IfOk result (λ members. members ≡ map member_of clauses.entries) }
{
    let mut members = Vec::with_capacity(alloc, clauses.len())?;
    for (clause, origin) in clauses {
        members.push(Member {
            clause,
            origin: origin.origin()?,
        })?;
    }
    Ok(MemberList::from(members))
}

fn copied_names(alloc: Global, names: &NameList) -> Result<NameList, Memory>
    ensures { IfOk result (λ copy. copy ≡ names.now) }
{
    let mut copy = Vec::with_capacity(alloc, names.len())?;
    for name in names.as_slice() {
        copy.push(name.clone()?)?;
    }
    Ok(NameList::from(copy))
}

/// The base of a certificate: the run's entries become its members, and the run's bank is its bank.
pub fn base_of(alloc: Global, p: &Problem, remains: Remains) -> Result<Base, Memory>
    ensures { IfOk result (λ b. b ≡ base_from p.now.names remains) }
{
    let Remains {
        bank,
        clauses,
        given,
    } = remains;
    let members = members_of(alloc, clauses)?;
    let names = copied_names(alloc, &p.names)?;
    Ok(Base {
        bank,
        inputs: given.inputs,
        names,
        axioms: given.axioms,
        members,
    })
}
