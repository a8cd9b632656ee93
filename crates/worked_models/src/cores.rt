// A core of clauses that are all empty: each one of them is refuted alone.
ghost use Rattle.std.specs.Prelude.{[], replicate};

use core_min::{SubListTest, Verdict, core_places};
use inst_logic::{Memory, NumberList};
use std::alloc::Global;
use std::test::Fail;

// A list of empty clauses, as many as are wanted.
#[derive(Drop)]
struct EmptyClauses {
    alloc: Global,
    count: usize,
}

impl SubListTest for EmptyClauses {
    ghost clauses = { λ s. replicate s.count [] };

    // They are refuted by the first of them, if there is one.
    fn decide(&mut self, places: &[usize]) -> Result<Verdict, Memory> {
        match places.first() {
            Some(place) => {
                let mut cited = NumberList::new(self.alloc);
                cited.push(*place)?;
                Ok(Verdict::Refuted(cited))
            }
            None => Ok(Verdict::Satisfiable),
        }
    }
}

// The places of a core of so many empty clauses.
fn core_of_empty_clauses(alloc: Global, count: usize) -> Result<Option<Vec<usize>>, Memory> {
    let mut test = EmptyClauses { alloc, count };
    core_places(alloc, &mut test, count)
}

#[test]
fn cores(rt: HostRuntime) -> Result<(), Fail> {
    let core = core_of_empty_clauses(rt.alloc(), 3)?;
    assert!(rt; core.is_some_and(|places| places.as_slice() == [1].as_slice()));
    assert!(rt; core_of_empty_clauses(rt.alloc(), 0)?.is_none());
    Ok(())
}
