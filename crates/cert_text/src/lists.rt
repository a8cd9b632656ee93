// Lists in brackets, with commas between their items.
ghost use Rattle.std.specs.Prelude.{◌≡◌, ◌++◌, [], ◌∷◌, OnOk, codes, decimal, map};
ghost use Rattle.inst_logic.specs.Printing.{joined, tree_text};
ghost use Rattle.term_bank.specs.Forest.{AreIds, tree_at};
ghost use Rattle.cert_format.specs.Lines.{listed};

use crate::pen::Pen;
use inst_logic::Memory;
use term_bank::{Bank, TermId};

// The number behind its mark.
fn push_marked(pen: &mut Pen, mark: &[u8], n: usize) -> Result<(), Memory>
    ensures { OnOk result (pen.new ≡ pen.old ++ (mark.now ++ decimal n)) }
{
    pen.bytes(mark)?;
    pen.number(n)
}

// What follows a number of a list: each more behind a comma.
#[tactic(auto, using(std::proofs::lemmas::Grind::common_steps, crate::proofs::Pieces::joined_first))]
fn push_following_numbers(pen: &mut Pen, mark: &[u8], rest: &[usize]) -> Result<(), Memory>
    ensures { OnOk result (pen.new ≡ pen.old ++ joined (codes ",") ([] ∷ map (λ p. mark.now ++ p) (map decimal rest.now))) }
{
    for n in rest {
        pen.bytes(b",")?;
        push_marked(pen, mark, *n)?;
    }
    Ok(())
}

#[tactic(auto, using(std::proofs::lemmas::Grind::common_steps, crate::proofs::Pieces::joined_first))]
fn push_joined_numbers(pen: &mut Pen, mark: &[u8], numbers: &[usize]) -> Result<(), Memory>
    ensures { OnOk result (pen.new ≡ pen.old ++ joined (codes ",") (map (λ p. mark.now ++ p) (map decimal numbers.now))) }
{
    match numbers {
        [] => Ok(()),
        [first, rest @ ..] => {
            push_marked(pen, mark, *first)?;
            push_following_numbers(pen, mark, rest)
        }
    }
}

// `[N,..]`, each number behind the mark.
pub fn push_numbers(pen: &mut Pen, mark: &[u8], numbers: &[usize]) -> Result<(), Memory>
    ensures { OnOk result (pen.new ≡ pen.old ++ listed mark.now (map decimal numbers.now)) }
{
    pen.bytes(b"[")?;
    push_joined_numbers(pen, mark, numbers)?;
    pen.bytes(b"]")?;
    Ok(())
}

// What follows a term of a list: each more behind a comma.
#[tactic(auto, using(std::proofs::lemmas::Grind::common_steps, crate::proofs::Pieces::joined_first))]
fn push_following_terms(pen: &mut Pen, bank: &Bank, rest: &[TermId]) -> Result<(), Memory>
    requires { AreIds bank.now rest.now }
    ensures { OnOk result (pen.new ≡ pen.old ++ joined (codes ",") ([] ∷ map tree_text (map (tree_at bank.now) rest.now))) }
{
    for id in rest {
        pen.bytes(b",")?;
        pen.term(bank, *id)?;
    }
    Ok(())
}

#[tactic(auto, using(std::proofs::lemmas::Grind::common_steps, crate::proofs::Pieces::joined_first))]
fn push_joined_terms(pen: &mut Pen, bank: &Bank, ids: &[TermId]) -> Result<(), Memory>
    requires { AreIds bank.now ids.now }
    ensures { OnOk result (pen.new ≡ pen.old ++ joined (codes ",") (map tree_text (map (tree_at bank.now) ids.now))) }
{
    match ids {
        [] => Ok(()),
        [first, rest @ ..] => {
            pen.term(bank, *first)?;
            push_following_terms(pen, bank, rest)
        }
    }
}

// `[T,..]`
pub fn push_terms(pen: &mut Pen, bank: &Bank, ids: &[TermId]) -> Result<(), Memory>
    requires { AreIds bank.now ids.now }
    ensures { OnOk result (pen.new ≡ pen.old ++ listed [] (map tree_text (map (tree_at bank.now) ids.now))) }
{
    pen.bytes(b"[")?;
    push_joined_terms(pen, bank, ids)?;
    pen.bytes(b"]")?;
    Ok(())
}
