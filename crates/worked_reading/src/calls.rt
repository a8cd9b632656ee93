// Calls on clauses, axioms, devices and files.
use crate::{axiom_lists, clauses, devices, loading};
use std::test::Fail;

#[test]
fn calls_have_these_answers(rt: HostRuntime) -> Result<(), Fail> {
    let alloc = rt.alloc();
    assert_eq!(rt; clauses::are_answered(alloc)?, [true; 6]);
    assert_eq!(rt;
        [
            axiom_lists::clauses_have_axioms(alloc)?,
            axiom_lists::symbols_have_axioms(alloc)?
        ],
        [true; 2]
    );
    assert_eq!(rt; devices::are_memories_right(alloc)?, [true; 6]);
    assert_eq!(rt; devices::are_real_ones_right(&rt, alloc)?, [true; 4]);
    assert_eq!(rt; loading::first_wrong_in_folder(&rt, alloc)?, None);
    Ok(())
}
