// Picks of a queue, and choices of literals.
ghost use Rattle.std.specs.Prelude.{◌≡◌, ◌<◌, ◌≤◌, [], IfSome};

use inst_logic::Memory;
use instgen_select::{Queue, choose};
use prop_logic::{Lit, LitList, Valuation};
use std::alloc::Global;

type Picks = [Option<usize>; 4];

// Numbers 1, 2 and 3 with these sizes, put in this order, and four picks.
fn four_picks_of(queue: &mut Queue, sizes: [u64; 3]) -> Result<Picks, Memory>
    requires { queue.old.items ≡ [] }
{
    queue.put(1, sizes[0])?;
    queue.put(2, sizes[1])?;
    queue.put(3, sizes[2])?;
    Ok([queue.pick(), queue.pick(), queue.pick(), queue.pick()])
}

fn four_picks(alloc: Global, sizes: [u64; 3]) -> Result<Picks, Memory> {
    let mut queue = Queue::new(alloc);
    four_picks_of(&mut queue, sizes)
}

pub fn least_and_oldest_are_picked_in_turn(alloc: Global) -> Result<bool, Memory> {
    let found = [
        four_picks(alloc, [5, 3, 4])?,
        four_picks(alloc, [3, 4, 5])?,
        four_picks(alloc, [5, 4, 3])?,
        four_picks(alloc, [7, 7, 7])?,
    ];
    let wanted = [
        [Some(2), Some(1), Some(3), None],
        [Some(1), Some(2), Some(3), None],
        [Some(3), Some(1), Some(2), None],
        [Some(1), Some(2), Some(3), None],
    ];
    Ok(found == wanted)
}

// The place that is chosen in the clause `0 | ~1 | 2`, where the atoms have these values.
fn chosen(alloc: Global, old: Option<usize>, values: [bool; 3]) -> Result<Option<usize>, Memory>
    requires { IfSome old (λ p. (0 < p) × (p ≤ 3)) }
{
    let clause = LitList::from(vec![in alloc;
        Lit {
            positive: true,
            atom: 0
        },
        Lit {
            positive: false,
            atom: 1
        },
        Lit {
            positive: true,
            atom: 2
        },
    ]?);
    let mut v = Valuation::new(alloc);
    v.push(values[0])?;
    v.push(values[1])?;
    v.push(values[2])?;
    Ok(choose(old, &clause, &v))
}

pub fn a_true_place_is_kept(alloc: Global) -> Result<bool, Memory> {
    let found = [
        chosen(alloc, None, [true, false, true])?,
        chosen(alloc, None, [false, false, true])?,
        chosen(alloc, None, [false, true, false])?,
        chosen(alloc, Some(3), [true, false, true])?,
        chosen(alloc, Some(1), [false, true, true])?,
        chosen(alloc, Some(3), [true, true, false])?,
        chosen(alloc, Some(2), [false, true, false])?,
    ];
    Ok(found == [Some(1), Some(2), None, Some(3), Some(3), Some(1), None])
}
