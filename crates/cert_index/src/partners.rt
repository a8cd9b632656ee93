// The heads of the members' selected literals, and chains by heads: each place leads on to the next one of the same head.
ghost use Rattle.std.specs.Prelude.{◌≡◌, ◌<◌, ℕ, length, IfOk, IfSome, Some, option_map, unwrap_or};
ghost use Rattle.indexmap.specs.IndexMap.{get};
ghost use Rattle.clause_form.specs.Literals.{id_eq};
ghost use Rattle.term_bank.specs.Forest.{symbol_at, symbol_of, tree_at};
ghost use Rattle.cert_values.specs.Values.{saturation_of};
ghost use Rattle.cert_values.specs.Wholes.{HasPlaces, IsWholeSaturation};
ghost use Rattle.cert_index.specs.Partners.{AreApart, AreChained, Head, IsHeadAt, IsHeadOf, IsNext, head_at};

use cert_values::{Saturation, selected};
use indexmap::IndexMap;
use inst_logic::{Memory, Signed};
use std::alloc::Global;
use term_bank::{Bank, IdLiteral};

// A sign and the number of a symbol.
pub type HeadId = Signed<usize>;

// For each place, counted from 0, its head, and the next place with that head; where there is none it is the number of places.
// And for each head its first place.
#[derive(Drop)]
pub struct Partners {
    pub(crate) heads: Vec<HeadId>,
    pub(crate) first: IndexMap<HeadId, usize>,
    pub(crate) same: Vec<usize>,
}

// The head of the literal, unless its atom is a variable.
pub fn head_of(bank: &Bank, l: &IdLiteral) -> Option<HeadId>
    requires { l.now.atom < length bank.now.trees }
    ensures is { IfSome result (IsHeadAt bank.now l.now) }
    ensures only { (h : Head) → IsHeadAt bank.now l.now h → result ≡ Some h }
    ensures symbol { option_map (λ h. symbol_at bank.now.symbols h.atom) result ≡ symbol_of (tree_at bank.now l.now.atom) }
{
    let number = bank.symbol_number(l.atom)?;
    Some(Signed {
        positive: l.positive,
        atom: number,
    })
}

// The head of the selected literal of member `i`, counted from 0.
fn head(cert: &Saturation, i: usize) -> HeadId
    requires whole { IsWholeSaturation cert.now }
    requires placed { HasPlaces (saturation_of cert.now) }
    requires within { i < length cert.now.base.members }
    ensures { IsHeadOf cert.now i result }
{
    match head_of(&cert.base.bank, selected(cert, i)) {
        Some(head) => head,
        None => unreachable!(),
    }
}

// The heads of the members.
pub fn find_heads(alloc: Global, cert: &Saturation) -> Result<Vec<HeadId>, Memory>
    requires whole { IsWholeSaturation cert.now }
    requires placed { HasPlaces (saturation_of cert.now) }
    ensures count { IfOk result (λ hs. length hs.items ≡ length cert.now.base.members) }
    ensures heads { IfOk result (λ hs. (k : ℕ) → k < length hs.items → IsHeadOf cert.now k (head_at hs.items k)) }
    ensures apart { IfOk result (λ hs. AreApart (saturation_of cert.now) hs.items) }
{
    let mut heads = Vec::with_capacity(alloc, cert.base.members.len())?;
    for i in 0..cert.base.members.len() {
        let head = head(cert, i);
        heads.push(head)?;
    }
    Ok(heads)
}

// The first place of the head, or the number of places where there is none.
pub fn place_of(first: &IndexMap<HeadId, usize>, head: HeadId, count: usize) -> usize
    ensures { result ≡ unwrap_or (get id_eq first.now head) count }
{
    first.get(&head).copied().unwrap_or(count)
}

// The chains through these heads.
pub fn through_heads(alloc: Global, heads: Vec<HeadId>) -> Result<Partners, Memory>
    ensures { IfOk result (λ p. (p.heads.items ≡ heads.items) × AreChained p.heads.items p.same.items 0 × ((h : Head) → IsNext p.heads.items h 0 (unwrap_or (get id_eq p.first h) (length p.heads.items)))) }
{
    let count = heads.len();
    let mut same = vec![in alloc; count; count]?;
    let mut first: IndexMap<HeadId, usize> = IndexMap::new(alloc);
    let mut i = count;
    while 0 < i {
        i -= 1;
        let head = heads[i];
        same[i] = place_of(&first, head, count);
        first.insert(head, i)?;
    }
    Ok(Partners { heads, first, same })
}
