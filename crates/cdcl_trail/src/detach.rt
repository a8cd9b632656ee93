// Clauses are taken out of their watch lists at once, by a scan of both. Watches that are left until they are met, as in
// MiniSat, would need a mark, since the number of a clause that was forgotten may be given again.
ghost use Rattle.std.specs.Prelude.{◌≡◌, ◌≢◌, ◌+◌, ◌<◌, ◌≤◌, ℕ, List, Option, None, length, map, vec_capacity, slice_set, Contains};
ghost use Rattle.inst_logic.specs.declared.signed.Signed.{Signed};
ghost use Rattle.cdcl_trail.specs.Watch.{slot_of, list_at, times, pair_at, AreWatched};
ghost use Rattle.cdcl_trail.specs.Detach.{IsUnwatched, IsUnwatchedBoth, IsUnwatchedAll, unpassed};

use crate::lists::{count_at, drop_watch, watch_at};
use crate::packed_pair::PackedPair;
use crate::visit::pair_of_clause;
use crate::watch::{Head, WatchedPair};
use crate::watch_list::WatchList;
use prop_logic::Lit;

// Takes clause n out of the literal's list.
fn unwatch_one(lists: &mut [WatchList], l: Lit, n: usize)
    requires { slot_of l < length lists.old }
    ensures { IsUnwatched n (slot_of l) lists.old lists.new }
{
    let mut place = 0;
    while place < count_at(lists, l) {
        if watch_at(lists, l, place).number == n {
            drop_watch(lists, l, place);
        } else {
            place += 1;
        }
    }
}

// Takes clause n out of the lists of the pair.
fn unwatch_pair(lists: &mut [WatchList], pair: WatchedPair, atoms: usize, n: usize)
    requires { length lists.old ≡ atoms + atoms }
    ensures both { pair.first.atom < atoms → pair.second.atom < atoms → slot_of pair.first ≢ slot_of pair.second → IsUnwatchedBoth n pair lists.old lists.new }
    ensures size { length lists.new ≡ length lists.old }
{
    if atoms <= pair.first.atom {
        return;
    }
    if atoms <= pair.second.atom {
        return;
    }
    unwatch_one(lists, pair.first, n);
    unwatch_one(lists, pair.second, n);
}

fn put_none(pairs: &mut [PackedPair], n: usize)
    requires { n < length pairs.old }
    ensures { pairs.new ≡ slice_set pairs.old n None }
{
    pairs[n] = PackedPair::none();
}

// Clause n watches nothing, and stands in no list.
pub(crate) fn unwatch(lists: &mut [WatchList], pairs: &mut [PackedPair], atoms: usize, n: usize)
    requires { length lists.old ≡ atoms + atoms }
    ensures lists { (clauses : List (Option (List (Signed ℕ)))) → AreWatched clauses lists.old pairs.old → IsUnwatchedAll n lists.old lists.new }
    ensures none { pair_at pairs.new n ≡ None }
    ensures others { (m : ℕ) → m ≢ n → pair_at pairs.new m ≡ pair_at pairs.old m }
    ensures room { length pairs.new ≡ length pairs.old }
    ensures size { length lists.new ≡ length lists.old }
{
    let Some(pair) = pair_of_clause(pairs, n) else {
        return;
    };
    unwatch_pair(lists, pair, atoms, n);
    put_none(pairs, n);
}

// All loose clauses are to be looked at again.
pub(crate) fn unpass_all(heads: &mut Vec<Head>)
    ensures heads { heads.new.items ≡ map unpassed heads.old.items }
    ensures capacity { vec_capacity heads.new ≡ vec_capacity heads.old }
{
    for place in 0..heads.len() {
        heads[place].passed = 0;
    }
}

// Takes clause n out of the loose ones.
pub(crate) fn forget_loose(loose: &mut Vec<u32>, n: usize)
    ensures gone { ¬ Contains loose.new.items n }
    ensures kept { (m : ℕ) → m ≢ n → Contains loose.old.items m → Contains loose.new.items m }
    ensures short { length loose.new.items ≤ length loose.old.items }
    ensures old { (m : ℕ) → Contains loose.new.items m → Contains loose.old.items m }
{
    let mut place = 0;
    while place < loose.len() {
        if loose[place] as usize == n {
            loose.swap_remove(place);
        } else {
            place += 1;
        }
    }
}
