// The lists of arguments, by the places of their cells.
ghost use Rattle.std.specs.Prelude.{◌≡◌, ◌<◌, ◌^◌, IfOk};
ghost use Rattle.finite_model.specs.Reading.{IsRow};

use inst_logic::Memory;
use std::alloc::Global;

/// How many lists of `n` elements there are, where that is a number.
pub(crate) fn row_count(k: usize, n: usize) -> Result<usize, Memory>
    ensures { IfOk result (λ count. count ≡ k ^ n) }
{
    let mut count: usize = 1;
    for _i in 0..n {
        count = count.checked_mul(k).ok_or(Memory)?;
    }
    Ok(count)
}

/// The list of `n` elements whose cell has this place: its digits to the base `k`, each one more.
pub fn row_at(alloc: Global, k: usize, n: usize, row: usize) -> Result<Vec<usize>, Memory>
    requires within { row < k ^ n }
    ensures { IfOk result (λ es. IsRow k n row es.items) }
{
    let mut es: Vec<usize> = vec![in alloc; 1; n]?;
    let mut rest = row;
    for j in (0..n).rev() {
        es[j] = rest % k + 1;
        rest = rest / k;
    }
    Ok(es)
}
