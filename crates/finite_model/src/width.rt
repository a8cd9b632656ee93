// Whether tables have too many cells. Counts are cut off past the limit, so no power overflows.
ghost use Rattle.std.specs.Prelude.{◌≡◌, ◌↔◌, ◌+◌, ◌*◌, ◌<◌, ◌^◌, length, min, slice_index_or, sum_by, IsTrue, IfOk};
ghost use Rattle.finite_model.specs.Flattening.{identity};
ghost use Rattle.finite_model.specs.Tables.{IsTooWide};

use crate::numbering::Numbering;
use indexmap::IndexSet;
use inst_logic::{Memory, Problem, Sym};
use std::alloc::Global;

// One more than the most cells that tables may have.
const CUT: usize = 1_000_001;

fn cut_product(a: usize, b: usize) -> usize
    ensures { result ≡ min (a * b) 1000001 }
{
    match a.checked_mul(b) {
        Some(product) => product.min(CUT),
        None => CUT,
    }
}

fn cut_sum(a: usize, b: usize) -> usize
    ensures { result ≡ min (a + b) 1000001 }
{
    match a.checked_add(b) {
        Some(sum) => sum.min(CUT),
        None => CUT,
    }
}

fn cut_power(k: usize, n: usize) -> usize
    requires { 0 < k }
    ensures { result ≡ min (k ^ n) 1000001 }
{
    let mut power = 1;
    for _i in 0..n {
        power = cut_product(power, k);
    }
    power
}

// How many cells the symbol at this place has.
fn cells_at(symbols: &IndexSet<Sym>, place: usize, k: usize) -> usize
    requires some { 0 < k }
    requires within { place < length symbols.now.keys }
    ensures { result ≡ min (k ^ (slice_index_or symbols.now.keys place identity).arity) 1000001 }
{
    match symbols.get_index(place) {
        Some(s) => cut_power(k, s.arity),
        None => unreachable!(),
    }
}

// How many cells all of them have.
fn cells_of_all(symbols: &IndexSet<Sym>, k: usize) -> usize
    requires { 0 < k }
    ensures { result ≡ min (sum_by (λ s. k ^ s.arity) symbols.now.keys) 1000001 }
{
    let mut total = 0;
    for place in 0..symbols.len() {
        total = cut_sum(total, cells_at(symbols, place, k));
    }
    total
}

/// Whether the tables of the problem over `k` elements have more than a million cells: `k` to the power of its arity for each function
/// and each predicate, equality not counted.
pub fn is_too_wide(alloc: Global, p: &Problem, k: usize) -> Result<bool, Memory>
    requires { 0 < k }
    ensures { IfOk result (λ b. IsTrue b ↔ IsTooWide k p.now.clauses) }
{
    let numbering = Numbering::of(alloc, &p.clauses)?;
    let functions = cells_of_all(&numbering.functions, k);
    let predicates = cells_of_all(&numbering.predicates, k);
    Ok(cut_sum(functions, predicates) == CUT)
}
