// A list with none, one and more items.
use crate::ShortList;
use inst_logic::Memory;
use std::alloc::Global;

// What the list has after some items came, one went and one was put in the place of another.
fn items_left(alloc: Global) -> Result<[u32; 3], Memory> {
    let mut list: ShortList<u32> = ShortList::new(alloc);
    list.push(7)?;
    list.push(8)?;
    list.push(9)?;
    let gone = list.swap_remove(0);
    list.put(0, 5);
    Ok([gone, list.at(0), list.at(1)])
}

#[test]
fn items_come_and_go(rt: HostRuntime) -> Result<(), Memory> {
    assert_eq!(rt; items_left(rt.alloc())?, [7, 5, 8]);
    Ok(())
}
