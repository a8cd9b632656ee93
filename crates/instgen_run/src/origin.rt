// Origins of entries in few bytes.
ghost use Rattle.std.specs.Prelude.{◌≡◌, ◌<◌, ◌≤◌, ◌∷◌, [], Some, true, false, length, IfOk};
ghost use Rattle.inst_logic.specs.Derivations.{at_number};
ghost use Rattle.cert_values.specs.declared.member.Origin.TheVariants.{Input, Inst};
ghost use Rattle.cert_values.specs.declared.member.Origin.TheVariants as origins;
ghost use Rattle.instgen_run.specs.Clauses.{Item};
ghost use Rattle.instgen_run.specs.Origins.{IsNoPart};
ghost use Rattle.instgen_run.specs.Marks.{told_by};
ghost use Rattle.instgen_run.specs.declared.event.Event.TheVariants.{Inferred};

use crate::premises::Premises;
use crate::small::small;
use cert_values::Origin;
use global_subs::Lemma;
use indexmap::IndexMap;
use inst_logic::Memory;
use std::alloc::Global;
use std::marker::Model;
use term_bank::IdClause;

// A part of the conclusion of these premises.
#[derive(Drop)]
struct Part {
    at: Premises,
    lemma: Lemma,
}

#[derive(Drop)]
enum Packed {
    Input(u32),
    Inst(Premises),
    Part(Box<Part>),
}

/// An origin in 24 bytes, and the lists of a lemma beside it.
#[derive(Drop)]
pub struct PackedOrigin {
    packed: Packed,
}

/// Clauses with their origins, by their numbers.
pub type Origins = IndexMap<IdClause, PackedOrigin>;

/// The origin of entry `n`.
pub fn origin_of(clauses: &Origins, n: usize) -> &PackedOrigin
    requires { (0 < n) × (n ≤ length clauses.now.entries) }
    ensures { (item : Item) × (at_number clauses.now.entries n ≡ Some item) × (item.1 ≡ result.now) }
{
    match clauses.get_index(n - 1) {
        Some((_, origin)) => origin,
        None => unreachable!(),
    }
}

impl Model for PackedOrigin {
    ghost use Rattle.cert_values.specs.declared.member.Origin.{Origin};

    ghost Value = { Origin };

    ghost use Rattle.instgen_run.specs.Origins.{origin_in};

    ghost view = { λ a. origin_in a.packed };
}

const _: () = prove!(size_of::<PackedOrigin>() == 24);

impl PackedOrigin {
    /// The origin of input clause `k`. It lacks memory where the number needs more than four bytes.
    pub fn input(k: usize) -> Result<PackedOrigin, Memory>
        ensures { IfOk result (λ o. o ≡ Input k) }
    {
        Ok(PackedOrigin {
            packed: Packed::Input(small(k)?),
        })
    }

    /// The origin of a conclusion.
    pub fn inst(at: Premises) -> PackedOrigin
        ensures { result ≡ Inst at.from at.place at.partner at.other }
    {
        PackedOrigin {
            packed: Packed::Inst(at),
        }
    }

    /// The origin of a part of a conclusion.
    pub fn lemma(alloc: Global, at: Premises, lemma: Lemma) -> Result<PackedOrigin, Memory>
        ensures { IfOk result (λ o. o ≡ origins.Lemma at.from at.place at.partner at.other lemma.keep lemma.premises) }
    {
        let part = Box::new(alloc, Part { at, lemma })?;
        Ok(PackedOrigin {
            packed: Packed::Part(part),
        })
    }

    /// Whether it is that of an input.
    pub fn is_input(&self) -> bool
        ensures yes { result ≡ true → told_by self.now ≡ [] }
        ensures no { result ≡ false → told_by self.now ≡ Inferred self.now ∷ [] }
    {
        match &self.packed {
            Packed::Input(_) => true,
            Packed::Inst(_) => false,
            Packed::Part(_) => false,
        }
    }

    /// Whether it may be that of a part of a conclusion. That of an input, or of a whole one, is none.
    pub fn is_part(&self) -> bool
        ensures { result ≡ false → IsNoPart self.now }
    {
        match &self.packed {
            Packed::Input(_) => false,
            Packed::Inst(_) => false,
            Packed::Part(_) => true,
        }
    }

    /// The origin. It takes memory for the lists of a lemma alone.
    pub fn origin(&self) -> Result<Origin, Memory>
        ensures { IfOk result (λ o. o ≡ self.now) }
    {
        match &self.packed {
            Packed::Input(k) => Ok(Origin::Input(*k as usize)),
            Packed::Inst(at) => Ok(at.origin()),
            Packed::Part(part) => {
                let part = part.as_ref();
                let lemma = Lemma {
                    keep: part.lemma.keep.clone()?,
                    premises: part.lemma.premises.clone()?,
                };
                Ok(part.at.lemma_origin(lemma))
            }
        }
    }
}
