use crate::rounds::{Order, Rounds};
use crate::turns::{Arrival, Turns};
use std::alloc::Global;
use std::test::Fail;

// The order whose turn it is after so many picks.
fn order_after(picks: u32) -> Order {
    let mut rounds = Rounds::new();
    for _ in 0..picks {
        rounds.advance();
    }
    rounds.order
}

#[test]
fn turns_are_long_and_two_short_ones_and_each_round_is_a_fifth_longer(rt: HostRuntime) {
    assert!(rt; order_after(899) == Order::Latest);
    assert!(rt; order_after(900) == Order::Newest);
    assert!(rt; order_after(1000) == Order::Least);
    assert!(rt; order_after(1100) == Order::Latest);
    assert!(rt; order_after(2179) == Order::Latest);
    assert!(rt; order_after(2180) == Order::Newest);
    assert!(rt; order_after(2300) == Order::Least);
}

fn arrival(number: usize, variables: usize, generation: u32) -> Arrival {
    Arrival {
        number,
        size: 1,
        variables,
        generation,
    }
}

fn four(alloc: Global) -> Result<Turns, Fail> {
    let mut turns = Turns::new(alloc);
    turns.put(&arrival(1, 0, 0))?;
    turns.put(&arrival(2, 2, 1))?;
    turns.put(&arrival(3, 1, 1))?;
    turns.put(&arrival(4, 1, 1))?;
    Ok(turns)
}

#[test]
fn the_latest_come_first_and_of_these_those_with_few_variables(
    rt: HostRuntime,
) -> Result<(), Fail> {
    let mut turns = four(rt.alloc())?;
    let picked = [
        turns.pick(),
        turns.pick(),
        turns.pick(),
        turns.pick(),
        turns.pick(),
    ];
    assert!(rt; picked == [Some(4), Some(3), Some(2), Some(1), None]);
    Ok(())
}

// The number picked after so many picks, of three that wait from the start: the first came latest, the second is the least, and the
// third is the newest. Before them each order takes the entries that are put in between.
fn picked_after(alloc: Global, picks: u32) -> Result<Option<usize>, Fail> {
    let mut turns = Turns::new(alloc);
    turns.put(&Arrival {
        size: 3,
        ..arrival(1, 0, 1)
    })?;
    turns.put(&Arrival {
        size: 2,
        ..arrival(2, 0, 0)
    })?;
    turns.put(&Arrival {
        size: 3,
        ..arrival(3, 0, 0)
    })?;
    for _ in 0..picks {
        turns.put(&arrival(4, 0, 2))?;
        turns.pick();
    }
    Ok(turns.pick())
}

#[test]
fn each_order_takes_its_own_after_the_slots_began_anew(rt: HostRuntime) -> Result<(), Fail> {
    let picked = [
        picked_after(rt.alloc(), 0)?,
        picked_after(rt.alloc(), 899)?,
        picked_after(rt.alloc(), 900)?,
        picked_after(rt.alloc(), 1000)?,
    ];
    assert!(rt; picked == [Some(1), Some(1), Some(3), Some(2)]);
    Ok(())
}
