// The members in the order of their numbers of literals, and chains through those whose selected literals have one head. What
// covers an instance without being a variant of it has fewer literals than its premise, so a search for it goes along a chain
// from the shortest member on, and stops at the first that is as long.
ghost use Rattle.std.specs.Prelude.{◌≡◌, ◌↔◌, ◌<◌, ℕ, All, Any, IfOk, IsTrue, length, unwrap_or};
ghost use Rattle.indexmap.specs.IndexMap.{get};
ghost use Rattle.clause_form.specs.Literals.{id_eq};
ghost use Rattle.cert_index.specs.Lengths.{AreGrouped, AreRanked, IsBelow, IsRankOf, heads_by};
ghost use Rattle.cert_index.specs.Partners.{Head, IsHeadAt};

use crate::partners::{HeadId, Partners, head_of, place_of, through_heads};
use cert_values::Member;
use indexmap::IndexMap;
use inst_logic::Memory;
use std::alloc::Global;
use term_bank::{Bank, IdLiteral};

/// A member's number of literals, and its place, counted from 0.
#[derive(Clone, Copy)]
pub struct Ranked {
    len: usize,
    pub(crate) place: usize,
}

/// The members from the shortest on. Each leads on to the next one whose selected literal has the same head; where there is none
/// it is the number of members. And for each head the first of its members.
#[derive(Drop)]
pub struct Lengths {
    pub(crate) ranked: Vec<Ranked>,
    first: IndexMap<HeadId, usize>,
    pub(crate) same: Vec<usize>,
}

// The members in the order of their numbers.
fn with_lengths(alloc: Global, members: &[Member]) -> Result<Vec<Ranked>, Memory>
    ensures each { IfOk result (λ rs. All (IsRankOf members.now) rs.items) }
    ensures all { IfOk result (λ rs. (k : ℕ) → k < length members.now → Any (λ r. r.place ≡ k) rs.items) }
{
    let mut ranked = Vec::with_capacity(alloc, members.len())?;
    for place in 0..members.len() {
        let member = &members[place];
        ranked.push(Ranked {
            len: member.clause.len(),
            place,
        })?;
    }
    Ok(ranked)
}

// The members from the shortest on.
fn by_length(alloc: Global, members: &[Member]) -> Result<Vec<Ranked>, Memory>
    ensures { IfOk result (λ rs. AreRanked members.now rs.items) }
{
    let mut ranked = with_lengths(alloc, members)?;
    ranked.sort_by_key(|r| r.len)?;
    Ok(ranked)
}

// The heads in the order of the ranks.
fn ordered_heads(alloc: Global, ranked: &[Ranked], heads: &[HeadId]) -> Result<Vec<HeadId>, Memory>
    requires { All (λ r. r.place < length heads.now) ranked.now }
    ensures { IfOk result (λ hs. hs.items ≡ heads_by heads.now ranked.now) }
{
    let mut ordered = Vec::with_capacity(alloc, ranked.len())?;
    for r in ranked {
        ordered.push(heads[r.place])?;
    }
    Ok(ordered)
}

// The chains with the order that they are in.
fn lengths_of(ranked: Vec<Ranked>, partners: Partners) -> Lengths
    ensures { result ≡ record { ranked = ranked; first = partners.first; same = partners.same } }
{
    let Partners { first, same, .. } = partners;
    Lengths {
        ranked,
        first,
        same,
    }
}

// The chains of the members, whose heads are these.
pub fn find_lengths(alloc: Global, members: &[Member], heads: &[HeadId]) -> Result<Lengths, Memory>
    requires { length heads.now ≡ length members.now }
    ensures { IfOk result (AreGrouped members.now heads.now) }
{
    let ranked = by_length(alloc, members)?;
    let ordered = ordered_heads(alloc, &ranked, heads)?;
    let partners = through_heads(alloc, ordered)?;
    Ok(lengths_of(ranked, partners))
}

impl Lengths {
    /// The first place in the order whose member's selected literal has the head of this one, or the number of members where
    /// there is none.
    pub fn first_place(&self, bank: &Bank, l: &IdLiteral) -> usize
        requires within { l.now.atom < length bank.now.trees }
        ensures { (h : Head) → IsHeadAt bank.now l.now h → result ≡ unwrap_or (get id_eq self.now.first h) (length self.now.ranked.items) }
    {
        let count = self.ranked.len();
        match head_of(bank, l) {
            Some(head) => place_of(&self.first, head, count),
            None => count,
        }
    }

    /// Whether there is a member at this place of the order, and has fewer literals than this many.
    pub fn is_below(&self, j: usize, len: usize) -> bool
        ensures { IsTrue result ↔ IsBelow self.now.ranked.items len j }
    {
        j < self.ranked.len() && self.ranked[j].len < len
    }
}
