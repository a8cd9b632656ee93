// Classes that leave out more of the pairs that do not unify than heads. Where every selected atom of a symbol has a symbol at the top of its
// first argument, two of them with different ones there have no unifier. So members are put into classes by both symbols, and
// only those of one class are chained: a relation of many facts would else meet each of its rules' instances.
ghost use Rattle.std.specs.Prelude.{◌≡◌, ◌<◌, ℕ, length, nat_eq, true, IfOk, OnOk, unwrap_or};
ghost use Rattle.std.specs.List.{list_any, position_or_len};
ghost use Rattle.indexmap.specs.IndexMap.{get};
ghost use Rattle.clause_form.specs.Literals.{id_eq};
ghost use Rattle.term_bank.specs.Forest.{KeepsPlaces};
ghost use Rattle.cert_index.specs.Narrow.{AreNarrow, AreUnmarked, IsNarrow, class_eq, class_in, no_class};
ghost use Rattle.cert_index.specs.Partners.{AreChained, Head, IsNext};

use crate::fingerprint::Fingerprint;
use crate::partners::{HeadId, Partners, through_heads};
use indexmap::IndexSet;
use inst_logic::{Memory, Signed};
use std::alloc::Global;

// The number of a symbol, and the mark of the first argument of its atoms, or 0 where some of them have none.
#[derive(Clone, Copy, PartialEq, Eq, Hash)]
pub struct Class {
    symbol: usize,
    mark: u32,
}

// Adds the symbol where the first argument of its atom has no mark.
fn note_unmarked(
    unmarked: &mut IndexSet<usize>,
    head: &HeadId,
    fingerprint: &Fingerprint,
) -> Result<(), Memory>
    ensures noted { OnOk result (fingerprint.now.own.first ≡ 0 → list_any (nat_eq head.now.atom) unmarked.new.keys ≡ true) }
    ensures kept { OnOk result ((s : ℕ) → list_any (nat_eq s) unmarked.old.keys ≡ true → list_any (nat_eq s) unmarked.new.keys ≡ true) }
{
    if fingerprint.first_mark() != 0 {
        return Ok(());
    }
    unmarked.insert(head.atom)?;
    Ok(())
}

// The symbols of which some atom has no mark for its first argument.
fn unmarked_symbols(
    alloc: Global,
    heads: &[HeadId],
    fingerprints: &[Fingerprint],
) -> Result<IndexSet<usize>, Memory>
    requires { length fingerprints.now ≡ length heads.now }
    ensures { IfOk result (λ unmarked. AreUnmarked heads.now fingerprints.now unmarked.keys (length heads.now)) }
{
    let mut unmarked: IndexSet<usize> = IndexSet::new(alloc);
    for i in 0..heads.len() {
        let head = &heads[i];
        let fingerprint = &fingerprints[i];
        note_unmarked(&mut unmarked, head, fingerprint)?;
    }
    Ok(unmarked)
}

fn class_of(unmarked: &IndexSet<usize>, head: &HeadId, fingerprint: &Fingerprint) -> Class
    ensures { result ≡ class_in unmarked.now.keys head.now fingerprint.now }
{
    let symbol = head.atom;
    if unmarked.contains(&symbol) {
        return Class { symbol, mark: 0 };
    }
    Class {
        symbol,
        mark: fingerprint.first_mark(),
    }
}

// The number of the class. A new one goes last.
fn number_of(classes: &mut IndexSet<Class>, class: Class) -> Result<usize, Memory>
    ensures number { IfOk result (λ n. n ≡ position_or_len (class_eq class) classes.new.keys) }
    ensures known { IfOk result (λ n. n < length classes.new.keys) }
    ensures grown { OnOk result (KeepsPlaces no_class classes.old.keys classes.new.keys) }
{
    let (number, _) = classes.insert_full(class)?;
    Ok(number)
}

fn narrow_head(
    unmarked: &IndexSet<usize>,
    classes: &mut IndexSet<Class>,
    head: &HeadId,
    fingerprint: &Fingerprint,
) -> Result<HeadId, Memory>
    ensures is { IfOk result (IsNarrow classes.new.keys unmarked.now.keys head.now fingerprint.now) }
    ensures grown { OnOk result (KeepsPlaces no_class classes.old.keys classes.new.keys) }
{
    let number = number_of(classes, class_of(unmarked, head, fingerprint))?;
    Ok(Signed {
        positive: head.positive,
        atom: number,
    })
}

// Each member's sign with the number of its class.
fn narrow_heads(
    alloc: Global,
    unmarked: &IndexSet<usize>,
    heads: &[HeadId],
    fingerprints: &[Fingerprint],
) -> Result<Vec<HeadId>, Memory>
    requires count { length fingerprints.now ≡ length heads.now }
    requires unmarked { AreUnmarked heads.now fingerprints.now unmarked.now.keys (length heads.now) }
    ensures count { IfOk result (λ ns. length ns.items ≡ length heads.now) }
    ensures narrow { IfOk result (λ ns. AreNarrow heads.now fingerprints.now ns.items) }
{
    let mut classes: IndexSet<Class> = IndexSet::new(alloc);
    let mut narrow = Vec::with_capacity(alloc, heads.len())?;
    for i in 0..heads.len() {
        let head = &heads[i];
        let fingerprint = &fingerprints[i];
        let numbered = narrow_head(unmarked, &mut classes, head, fingerprint)?;
        narrow.push(numbered)?;
    }
    Ok(narrow)
}

// The chains through the classes of those with these heads and fingerprints.
pub fn find_classes(
    alloc: Global,
    heads: &[HeadId],
    fingerprints: &[Fingerprint],
) -> Result<Partners, Memory>
    requires { length fingerprints.now ≡ length heads.now }
    ensures narrow { IfOk result (λ p. AreNarrow heads.now fingerprints.now p.heads.items) }
    ensures count { IfOk result (λ p. length p.heads.items ≡ length heads.now) }
    ensures chained { IfOk result (λ p. AreChained p.heads.items p.same.items 0) }
    ensures first { IfOk result (λ p. (h : Head) → IsNext p.heads.items h 0 (unwrap_or (get id_eq p.first h) (length p.heads.items))) }
{
    let unmarked = unmarked_symbols(alloc, heads, fingerprints)?;
    let narrow = narrow_heads(alloc, &unmarked, heads, fingerprints)?;
    through_heads(alloc, narrow)
}
