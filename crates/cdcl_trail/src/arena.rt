// The clauses that propagation reads, packed in one vector, as in MiniSat's `ClauseAllocator` (Eén and Sörensson, MiniSat 2.2,
// 2010): a visit reads the eight bytes that say where a clause stands, and then its literals. No literal is written once it
// stands here. Where clauses were taken out there are gaps, which are closed when they make a third.
ghost use Rattle.std.specs.Prelude.{◌≡◌, ◌≢◌, ◌<◌, ◌≤◌, ◌^◌, ◌++◌, ◌∷◌, [], ℕ, List, Some, length, option_copied, IfOk, OnOk};
ghost use Rattle.inst_logic.specs.declared.signed.Signed.{Signed};
ghost use Rattle.cdcl_trail.specs.Clauses.{clause_number, RemovesClause};
ghost use Rattle.cdcl_trail.specs.Arena.{clause_at, clauses_at, AreWithin};

use crate::packed_watch::MOST_NUMBER;
use compact_lists::PackedLit;
use inst_logic::Memory;
use prop_logic::Lit;
use std::alloc::Global;
use std::marker::Model;

// Where the literals of a clause stand. A span that ends before it starts is of no clause.
#[derive(Clone, Copy)]
struct Span {
    start: u32,
    end: u32,
}

const _: () = prove!(size_of::<Span>() == 8);

const NO_CLAUSE: Span = Span { start: 1, end: 0 };

// Clauses by numbers, counted from 1: their literals in one vector, and for each number the span of its clause.
#[derive(Drop)]
pub(crate) struct Arena {
    alloc: Global,
    literals: Vec<PackedLit>,
    spans: Vec<Span>,
    // How many literals belong to no clause any more.
    waste: usize,
}

// The attached clauses: copies of those that watch, and the numbers of those that watch nothing.
#[derive(Drop)]
pub(crate) struct Attached {
    pub(crate) arena: Arena,
    pub(crate) loose: Vec<u32>,
}

impl Model for Arena {
    ghost use Rattle.std.specs.Prelude.{ℕ, List, Option, length};
    ghost use Rattle.inst_logic.specs.declared.signed.Signed.{Signed};
    ghost use Rattle.cdcl_trail.specs.Arena.{clauses_at, AreWithin};

    ghost Value = { List (Option (List (Signed ℕ))) };

    ghost view = { λ a. clauses_at a.literals.items a.spans.items };

    ghost invariant = { λ a. AreWithin (length a.literals.items) a.spans.items };
}

// The number of literals, where it is a place.
fn place_of(count: usize) -> Result<u32, Memory>
    ensures { IfOk result (λ place. place ≡ count) }
{
    match u32::try_from(count) {
        Ok(place) => Ok(place),
        Err(_) => Err(Memory),
    }
}

// Puts the literals behind the others.
fn push_packed(literals: &mut Vec<PackedLit>, clause: &[Lit]) -> Result<(), Memory>
    ensures items { OnOk result (literals.new.items ≡ literals.old.items ++ clause.now) }
    ensures size { length literals.old.items ≤ length literals.new.items }
{
    for lit in clause {
        literals.push(PackedLit::of(*lit)?)?;
    }
    Ok(())
}

// Puts the literals behind the others, and answers where they stand.
fn push_span(literals: &mut Vec<PackedLit>, clause: &[Lit]) -> Result<Span, Memory>
    ensures here { IfOk result (λ s. clause_at literals.new.items s ≡ Some clause.now) }
    ensures within { IfOk result (λ s. s.end ≤ length literals.new.items) }
    ensures items { OnOk result (literals.new.items ≡ literals.old.items ++ clause.now) }
    ensures size { length literals.old.items ≤ length literals.new.items }
{
    let start = place_of(literals.len())?;
    push_packed(literals, clause)?;
    let end = place_of(literals.len())?;
    Ok(Span { start, end })
}

// Puts a copy of the packed literals behind the others, and answers where they stand.
fn push_copied(literals: &mut Vec<PackedLit>, clause: &[PackedLit]) -> Result<Span, Memory>
    ensures here { IfOk result (λ s. clause_at literals.new.items s ≡ Some clause.now) }
    ensures within { IfOk result (λ s. s.end ≤ length literals.new.items) }
    ensures items { OnOk result (literals.new.items ≡ literals.old.items ++ clause.now) }
    ensures size { length literals.old.items ≤ length literals.new.items }
{
    let start = place_of(literals.len())?;
    literals.extend_from_slice(clause)?;
    let end = place_of(literals.len())?;
    Ok(Span { start, end })
}

// Makes a span for each number up to n.
fn lengthen(spans: &mut Vec<Span>, n: usize) -> Result<(), Memory>
    ensures longer { OnOk result (n ≤ length spans.new.items) }
    ensures kept { (literals : List (Signed ℕ)) (k : ℕ) → clause_number (clauses_at literals spans.new.items) k ≡ clause_number (clauses_at literals spans.old.items) k }
    ensures within { (size : ℕ) → AreWithin size spans.old.items → AreWithin size spans.new.items }
{
    while spans.len() < n {
        spans.push(NO_CLAUSE)?;
    }
    Ok(())
}

// The literals of clause n.
fn literals_of<'a>(literals: &'a [PackedLit], spans: &[Span], n: usize) -> Option<&'a [PackedLit]>
    requires { AreWithin (length literals.now) spans.now }
    ensures { option_copied result ≡ clause_number (clauses_at literals.now spans.now) n }
{
    if n == 0 || spans.len() < n {
        return None;
    }
    let span = spans[n - 1];
    if span.end < span.start {
        return None;
    }
    Some(&literals[span.start as usize..span.end as usize])
}

impl Arena {
    // No clauses, which take no memory.
    pub(crate) fn new(alloc: Global) -> Arena
        ensures { result ≡ [] }
    {
        Arena {
            alloc,
            literals: Vec::new(alloc),
            spans: Vec::new(alloc),
            waste: 0,
        }
    }

    // The literals of clause n, or `None` where there is none.
    pub(crate) fn get(&self, n: usize) -> Option<&[PackedLit]>
        ensures { option_copied result ≡ clause_number self.now n }
    {
        literals_of(self.literals.as_slice(), self.spans.as_slice(), n)
    }

    // Keeps a copy of the clause under this number, which has none. There is no room for a number that no watch holds, nor for
    // an atom that is not below 2^31.
    pub(crate) fn keep(&mut self, n: usize, clause: &[Lit]) -> Result<(), Memory>
        ensures here { OnOk result (clause_number self.new n ≡ Some clause.now) }
        ensures small { OnOk result (n < 2 ^ 31) }
        ensures others { OnOk result ((k : ℕ) → k ≢ n → clause_number self.new k ≡ clause_number self.old k) }
    {
        if n == 0 {
            return Err(Memory);
        }
        if MOST_NUMBER < n {
            return Err(Memory);
        }
        lengthen(&mut self.spans, n)?;
        let span = push_span(&mut self.literals, clause)?;
        self.spans[n - 1] = span;
        Ok(())
    }

    // Takes clause n out, if there is one.
    pub(crate) fn remove(&mut self, n: usize)
        ensures { RemovesClause self.old self.new n }
    {
        self.clear(n);
        self.close_up();
    }

    // Leaves the literals of clause n as a gap.
    fn clear(&mut self, n: usize)
        ensures { RemovesClause self.old self.new n }
    {
        if n == 0 || self.spans.len() < n {
            return;
        }
        let span = self.spans[n - 1];
        let count = span.end.saturating_sub(span.start) as usize;
        self.waste = self.waste.saturating_add(count);
        self.spans[n - 1] = NO_CLAUSE;
    }

    // Closes the gaps, where they make a third of what a copy takes. Without room for the copy they stay.
    fn close_up(&mut self)
        ensures { self.new ≡ self.old }
    {
        if self.waste < self.literals.len() / 3 + self.spans.len() / 3 {
            return;
        }
        if let Ok(copy) = self.closed_up() {
            *self = copy;
        }
    }

    // A copy of the clauses without gaps.
    fn closed_up(&self) -> Result<Arena, Memory>
        ensures { IfOk result (λ a. a ≡ self.now) }
    {
        let mut copy = Arena::new(self.alloc);
        for i in 0..self.spans.len() {
            copy.push(self.get(i + 1))?;
        }
        Ok(copy)
    }

    // Ends the numbers with one of this clause, or of none.
    fn push(&mut self, clause: Option<&[PackedLit]>) -> Result<(), Memory>
        ensures { OnOk result (self.new ≡ self.old ++ option_copied clause.entry ∷ []) }
    {
        let Some(clause) = clause else {
            self.spans.push(NO_CLAUSE)?;
            return Ok(());
        };
        let span = push_copied(&mut self.literals, clause)?;
        self.spans.push(span)?;
        Ok(())
    }
}
