// A valid refutation of the first format with the input and the terms of each ground clause, as the origins of its member tell.
ghost use Rattle.std.specs.Prelude.{◌≡◌, ◌+◌, ◌<◌, All, IfOk, IsTrue, OnOk, length, map};
ghost use Rattle.inst_logic.specs.declared.symbol.Sym as format;
ghost use Rattle.inst_logic.specs.Tree.{app, none};
ghost use Rattle.inst_logic.specs.WellFormed.{is_constant};
ghost use Rattle.cert_format.specs.Upgrades.{GivesTerms, IsUpgrade};
ghost use Rattle.cert_format.specs.Validity.{IsValidByLines};
ghost use Rattle.term_bank.specs.Forest.{IsAt, tree_at};
ghost use Rattle.cert_values.specs.Values.{base_of, first_of, refutation_of};
ghost use Rattle.cert_values.specs.Wholes.{IsWholeBase, IsWholeRefutation, IsWholeTerm, KeepsBase};
ghost use Rattle.cert_check.specs.Sources.{AreFirstMembers, AreGroundLines, AreSources, IsSource};

use crate::first::CheckedFirst;
use crate::grounds::id_for_each_variable;
use crate::source::{Source, source_under, sources_of};
use cert_format::valid_can_be_upgraded;
use cert_index::clause_copy;
use cert_values::{Base, FirstRefutation, GroundLine, GroundLineList, Refutation};
use inst_logic::{Memory, Sym};
use std::alloc::Global;
use term_bank::{IdClauseList, TermId};

// The source of member `i`, counted from 0, with the constant for each of the member's variables.
fn ground_source(
    alloc: Global,
    base: &mut Base,
    constant: TermId,
    source: &Source,
    i: usize,
) -> Result<Source, Memory>
    requires whole { IsWholeBase base.old }
    requires members { AreFirstMembers (base_of base.old) }
    requires constant { IsWholeTerm base.old.bank constant }
    requires within { i < length base.old.members }
    requires source { IsSource base.old.bank (base_of base.old) (i + 1) source.now }
    ensures kept { KeepsBase base.old base.new }
    ensures whole { OnOk result (IsWholeBase base.new) }
    ensures terms { IfOk result (λ s. All (IsWholeTerm base.new.bank) s.terms) }
    ensures given { IfOk result (λ s. (bot : format.Sym) → IsAt base.old.bank constant (app bot none) → GivesTerms (base_of base.old) bot (i + 1) s.input (map (tree_at base.new.bank) s.terms)) }
{
    let member = &base.members.as_slice()[i];
    let constants = id_for_each_variable(alloc, &base.bank, constant, &member.clause)?;
    source_under(alloc, &mut base.bank, source, &constants)
}

// The ground lines of the members with these sources.
fn ground_lines(
    alloc: Global,
    base: &mut Base,
    constant: TermId,
    sources: &[Source],
    grounds: &IdClauseList,
) -> Result<GroundLineList, Memory>
    requires whole { IsWholeBase base.old }
    requires members { AreFirstMembers (base_of base.old) }
    requires constant { IsWholeTerm base.old.bank constant }
    requires sources { AreSources base.old.bank (base_of base.old) (length base.old.members) sources.now }
    requires count { length grounds.now ≡ length base.old.members }
    ensures kept { KeepsBase base.old base.new }
    ensures whole { OnOk result (IsWholeBase base.new) }
    ensures lines { IfOk result (λ ls. (bot : format.Sym) → IsAt base.old.bank constant (app bot none) → AreGroundLines base.new.bank (base_of base.old) bot grounds.now ls) }
{
    let mut lines = GroundLineList::new(alloc);
    for i in 0..grounds.len() {
        let source = ground_source(alloc, base, constant, &sources[i], i)?;
        let clause = clause_copy(alloc, &grounds.as_slice()[i])?;
        lines.push(GroundLine {
            clause,
            input: source.input,
            terms: source.terms,
        })?;
    }
    Ok(lines)
}

// The ground lines of the members, under the constant.
fn lines_of(
    alloc: Global,
    base: &mut Base,
    bot: &Sym,
    grounds: &IdClauseList,
) -> Result<GroundLineList, Memory>
    requires whole { IsWholeBase base.old }
    requires members { AreFirstMembers (base_of base.old) }
    requires bot { IsTrue (is_constant bot.now) }
    requires count { length grounds.now ≡ length base.old.members }
    ensures kept { KeepsBase base.old base.new }
    ensures whole { OnOk result (IsWholeBase base.new) }
    ensures lines { IfOk result (AreGroundLines base.new.bank (base_of base.old) bot.now grounds.now) }
{
    let sources = sources_of(alloc, base)?;
    let constant = base.bank.app(bot, &[])?;
    ground_lines(alloc, base, constant, sources.as_slice(), grounds)
}

/// The refutation with the same inputs, names, axioms, members, constant and steps, in which each ground clause has the number of
/// its input or axiom and the terms for its variables. The certificate that is handed in is dropped where memory is wanted.
/// Time: a unification for each member that is an instance, and its terms.
pub fn upgrade(alloc: Global, cert: CheckedFirst) -> Result<Refutation, Memory>
    ensures upgrade { IfOk result (λ r. IsUpgrade (first_of cert) (refutation_of r)) }
    ensures valid { IfOk result (λ r. IsValidByLines (refutation_of r)) }
    ensures whole { IfOk result IsWholeRefutation }
{
    let FirstRefutation {
        base,
        bot,
        grounds,
        steps,
    } = cert.into_cert();
    let mut base = base;
    let lines = lines_of(alloc, &mut base, &bot, &grounds)?;
    valid_can_be_upgraded();
    Ok(Refutation {
        base,
        bot,
        grounds: lines,
        steps,
    })
}
