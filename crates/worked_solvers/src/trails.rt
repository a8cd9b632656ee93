// Calls on a trail and its clauses, in several orders.
ghost use Rattle.std.specs.Prelude.{◌≡◌, ◌<◌, [], IfOk, OnOk};
ghost use Rattle.prop_logic.specs.Literal.{AtomsBelow};
ghost use Rattle.cdcl_trail.specs.Attached.{AreAttached};
ghost use Rattle.cdcl_trail.specs.Clauses.{ClausesBelow};

use cdcl_trail::{Clauses, Trail};
use inst_logic::Memory;
use prop_logic::Lit;
use std::alloc::Global;

fn lit(atom: usize, positive: bool) -> Lit
    ensures { result ≡ (record { positive = positive; atom = atom }) }
{
    Lit { positive, atom }
}

// One call.
#[derive(Clone, Copy)]
enum Call {
    // The clause of these literals is added and attached.
    Attach([(usize, bool); 3]),
    Decide(usize, bool),
    BackTo(usize),
    // Whether a clause is false.
    Propagate(bool),
}

fn grow_all(trail: &mut Trail, clauses: &Clauses, count: usize) -> Result<(), Memory>
    requires attached { AreAttached trail.old clauses.now }
    requires none { trail.old.trail.atoms ≡ 0 }
    ensures attached { OnOk result (AreAttached trail.new clauses.now) }
    ensures atoms { OnOk result (trail.new.trail.atoms ≡ count) }
    ensures entries { OnOk result (trail.new.trail.entries ≡ trail.old.trail.entries) }
{
    for _ in 0..count {
        trail.grow()?;
    }
    Ok(())
}

// A trail without atoms for no clauses.
fn make_trail(alloc: Global, clauses: &Clauses) -> Trail
    requires { clauses.now ≡ [] }
    ensures attached { AreAttached result clauses.now }
    ensures atoms { result.trail.atoms ≡ 0 }
    ensures entries { result.trail.entries ≡ [] }
{
    Trail::new(alloc)
}

fn add(trail: &mut Trail, clauses: &mut Clauses, clause: &[Lit]) -> Result<usize, Memory>
    requires attached { AreAttached trail.old clauses.old }
    requires below { ClausesBelow trail.old.trail.atoms clauses.old }
    requires atoms { AtomsBelow trail.old.trail.atoms clause.now }
    ensures attached { OnOk result (AreAttached trail.new clauses.new) }
    ensures below { OnOk result (ClausesBelow trail.new.trail.atoms clauses.new) }
    ensures atoms { OnOk result (trail.new.trail.atoms ≡ trail.old.trail.atoms) }
{
    let n = clauses.add(clause)?;
    trail.attach(clauses, n)?;
    Ok(n)
}

fn decide(trail: &mut Trail, clauses: &Clauses, l: Lit)
    requires attached { AreAttached trail.old clauses.now }
    requires atom { l.atom < trail.old.trail.atoms }
    ensures attached { AreAttached trail.new clauses.now }
    ensures atoms { trail.new.trail.atoms ≡ trail.old.trail.atoms }
{
    match trail.value(l) {
        None => trail.decide(l),
        Some(_) => {}
    }
}

fn back_to(trail: &mut Trail, clauses: &Clauses, level: usize)
    requires attached { AreAttached trail.old clauses.now }
    ensures attached { AreAttached trail.new clauses.now }
    ensures atoms { trail.new.trail.atoms ≡ trail.old.trail.atoms }
{
    if level <= trail.level() {
        trail.back_to(level);
    }
}

fn small(name: (usize, bool)) -> Lit
    ensures { result.atom < 4 }
{
    Lit {
        positive: name.1,
        atom: name.0 % 4,
    }
}

fn propagate(trail: &mut Trail, clauses: &Clauses) -> Result<bool, Memory>
    requires attached { AreAttached trail.old clauses.now }
    requires below { ClausesBelow trail.old.trail.atoms clauses.now }
    ensures attached { OnOk result (AreAttached trail.new clauses.now) }
    ensures atoms { OnOk result (trail.new.trail.atoms ≡ trail.old.trail.atoms) }
{
    let found = trail.propagate(clauses)?;
    Ok(found.is_some())
}

// Makes the call, and answers whether it went as it says.
fn make(trail: &mut Trail, clauses: &mut Clauses, call: Call) -> Result<bool, Memory>
    requires attached { AreAttached trail.old clauses.old }
    requires below { ClausesBelow trail.old.trail.atoms clauses.old }
    requires atoms { trail.old.trail.atoms ≡ 4 }
    ensures attached { OnOk result (AreAttached trail.new clauses.new) }
    ensures below { OnOk result (ClausesBelow trail.new.trail.atoms clauses.new) }
    ensures atoms { OnOk result (trail.new.trail.atoms ≡ 4) }
{
    match call {
        Call::Attach(names) => {
            add(
                trail,
                clauses,
                &[small(names[0]), small(names[1]), small(names[2])],
            )?;
            Ok(true)
        }
        Call::Decide(atom, positive) => {
            decide(trail, clauses, small((atom, positive)));
            Ok(true)
        }
        Call::BackTo(level) => {
            back_to(trail, clauses, level);
            Ok(true)
        }
        Call::Propagate(conflict) => Ok(propagate(trail, clauses)? == conflict),
    }
}

// Makes the calls, and answers whether all went as they say.
fn make_all(trail: &mut Trail, clauses: &mut Clauses, calls: &[Call]) -> Result<bool, Memory>
    requires attached { AreAttached trail.old clauses.old }
    requires below { ClausesBelow trail.old.trail.atoms clauses.old }
    requires atoms { trail.old.trail.atoms ≡ 4 }
    ensures { OnOk result (trail.new.trail.atoms ≡ 4) }
{
    for call in calls {
        if !make(trail, clauses, *call)? {
            return Ok(false);
        }
    }
    Ok(true)
}

// The values of four atoms after the calls, if all went as they say.
fn values_after_by(
    trail: &mut Trail,
    clauses: &mut Clauses,
    calls: &[Call],
) -> Result<Option<[Option<bool>; 4]>, Memory>
    requires attached { AreAttached trail.old clauses.old }
    requires below { clauses.old ≡ [] }
    requires atoms { trail.old.trail.atoms ≡ 0 }
{
    grow_all(trail, clauses, 4)?;
    if !make_all(trail, clauses, calls)? {
        return Ok(None);
    }
    Ok(Some([
        trail.value(lit(0, true)),
        trail.value(lit(1, true)),
        trail.value(lit(2, true)),
        trail.value(lit(3, true)),
    ]))
}

fn values_after(alloc: Global, calls: &[Call]) -> Result<Option<[Option<bool>; 4]>, Memory> {
    let mut clauses = Clauses::new(alloc);
    let mut trail = make_trail(alloc, &clauses);
    values_after_by(&mut trail, &mut clauses, calls)
}

// Whether all calls go as they say, and the atoms have these values after them.
fn gives(alloc: Global, calls: &[Call], values: [Option<bool>; 4]) -> Result<bool, Memory> {
    Ok(values_after(alloc, calls)? == Some(values))
}

const ABOUT_0_1: Call = Call::Attach([(0, true), (1, true), (0, true)]);

const ABOUT_1_2: Call = Call::Attach([(1, true), (2, true), (1, true)]);

const NOT_1_OR_NOT_2: Call = Call::Attach([(1, false), (2, false), (2, false)]);

const ALL_OF_012: Call = Call::Attach([(0, true), (1, true), (2, true)]);

const NOT_3: Call = Call::Attach([(3, false), (3, false), (3, false)]);

// The calls, and the values of the four atoms after them.
type Row<'a> = (&'a [Call], [Option<bool>; 4]);

// The place of the first row whose calls don't all go as they say, or leave other values.
fn first_wrong(alloc: Global, rows: &[Row<'_>]) -> Result<Option<usize>, Memory> {
    for i in 0..rows.len() {
        if !gives(alloc, rows[i].0, rows[i].1)? {
            return Ok(Some(i));
        }
    }
    Ok(None)
}

pub fn propagation_is_exact_in_any_order_of_calls(alloc: Global) -> Result<bool, Memory> {
    let rows: [Row<'_>; 7] = [
        // Two decisions, and then one propagation.
        (
            &[
                ALL_OF_012,
                Call::Decide(0, false),
                Call::Decide(1, false),
                Call::Propagate(false),
            ],
            [Some(false), Some(false), Some(true), None],
        ),
        // A second propagation after a false clause finds it again.
        (
            &[
                ABOUT_0_1,
                ABOUT_1_2,
                Call::Decide(1, false),
                Call::Decide(0, false),
                Call::Propagate(true),
                Call::Propagate(true),
            ],
            [Some(false), Some(false), None, None],
        ),
        // The clause that was unit above is unit again below.
        (
            &[
                ABOUT_0_1,
                Call::Decide(0, false),
                Call::Propagate(false),
                Call::Decide(2, true),
                Call::Propagate(false),
                Call::BackTo(1),
                Call::Propagate(false),
            ],
            [Some(false), Some(true), None, None],
        ),
        // A literal that was given goes with its level.
        (
            &[
                ABOUT_0_1,
                Call::Decide(0, false),
                Call::Propagate(false),
                Call::BackTo(0),
                Call::Propagate(false),
            ],
            [None, None, None, None],
        ),
        // A clause that is unit when it is attached.
        (
            &[
                Call::Decide(0, false),
                Call::Decide(1, false),
                Call::Propagate(false),
                ALL_OF_012,
                Call::Propagate(false),
            ],
            [Some(false), Some(false), Some(true), None],
        ),
        // A clause that is false when it is attached, and unit one level below.
        (
            &[
                Call::Decide(1, true),
                Call::Decide(2, true),
                NOT_1_OR_NOT_2,
                Call::Propagate(true),
                Call::BackTo(1),
                Call::Propagate(false),
            ],
            [None, Some(true), Some(false), None],
        ),
        // One literal that stands three times is one.
        (
            &[NOT_3, Call::Propagate(false)],
            [None, None, None, Some(false)],
        ),
    ];
    Ok(first_wrong(alloc, &rows)? == None)
}

// What is known of atom 1 when atom 0 of a clause of both is decided to be false.
#[derive(Clone, Copy, Debug, PartialEq, Eq)]
struct Implication {
    conflict: Option<usize>,
    value: Option<bool>,
    reason: Option<usize>,
    level: Option<usize>,
    place: Option<usize>,
    second: Option<Lit>,
}

fn given_by(trail: &mut Trail, clauses: &mut Clauses) -> Result<Implication, Memory>
    requires attached { AreAttached trail.old clauses.old }
    requires below { clauses.old ≡ [] }
    requires atoms { trail.old.trail.atoms ≡ 0 }
{
    grow_all(trail, clauses, 2)?;
    add(trail, clauses, &[lit(0, true), lit(1, true)])?;
    decide(trail, clauses, lit(0, false));
    let conflict = trail.propagate(clauses)?;
    Ok(Implication {
        conflict,
        value: trail.value(lit(1, true)),
        reason: trail.reason(1),
        level: trail.level_of(1),
        place: trail.place_of(1),
        second: trail.assigned().get(1).copied(),
    })
}

fn given(alloc: Global) -> Result<Implication, Memory> {
    let mut clauses = Clauses::new(alloc);
    let mut trail = make_trail(alloc, &clauses);
    given_by(&mut trail, &mut clauses)
}

pub fn a_decision_gives_the_other_literal(alloc: Global) -> Result<bool, Memory> {
    let want = Implication {
        conflict: None,
        value: Some(true),
        reason: Some(1),
        level: Some(1),
        place: Some(1),
        second: Some(lit(1, true)),
    };
    Ok(given(alloc)? == want)
}

fn forget(clauses: &mut Clauses, n: usize) {
    if clauses.get(n).is_some() {
        clauses.forget(n);
    }
}

// The numbers of two clauses, and of one that is added when the first of them is forgotten.
fn numbers_by(trail: &mut Trail, clauses: &mut Clauses) -> Result<[usize; 3], Memory>
    requires attached { AreAttached trail.old clauses.old }
    requires below { clauses.old ≡ [] }
    requires atoms { trail.old.trail.atoms ≡ 0 }
    requires entries { trail.old.trail.entries ≡ [] }
{
    grow_all(trail, clauses, 3)?;
    let first = clauses.add(&[lit(0, true), lit(1, true)])?;
    trail.attach(clauses, first)?;
    let second = clauses.add(&[lit(0, false), lit(1, true)])?;
    trail.attach(clauses, second)?;
    trail.detach(clauses, first);
    forget(clauses, first);
    let third = clauses.add(&[lit(2, true)])?;
    Ok([first, second, third])
}

fn numbers(alloc: Global) -> Result<[usize; 3], Memory> {
    let mut clauses = Clauses::new(alloc);
    let mut trail = make_trail(alloc, &clauses);
    numbers_by(&mut trail, &mut clauses)
}

pub fn a_forgotten_number_is_given_again(alloc: Global) -> Result<bool, Memory> {
    Ok(numbers(alloc)? == [1, 2, 1])
}
