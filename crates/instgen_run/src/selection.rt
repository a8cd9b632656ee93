// The selected literals of the entries.
ghost use Rattle.std.specs.Prelude.{◌≡◌, ◌<◌, ◌≤◌, ◌-◌, ◌++◌, ◌∷◌, [], suc, Some, length, IfOk, OnOk, IfSome, slice_get, slice_set, slice_index_or};
ghost use Rattle.inst_logic.specs.Derivations.{at_number};
ghost use Rattle.inst_logic.specs.Truth.{IsTrueClause};
ghost use Rattle.prop_logic.specs.Valuation.{IsHeld};
ghost use Rattle.instgen_select.specs.Choices.{IsTrueAt};
ghost use Rattle.instgen_run.specs.Choosing.{IsChoice, AreUsersKept};

use crate::small::small;
use compact_lists::{PackedLit, ShortList};
use inst_logic::{Memory, PlaceList};
use instgen_select::choose_among;
use prop_logic::Valuation;
use std::alloc::Global;
use std::marker::Model;
use std::mem::replace;

/// The numbers of the entries that may have an atom selected: most often one or none.
pub type Users = ShortList<u32>;

/// The place of a literal, counted from 1, with the number of its atom.
#[derive(Clone, Copy, Debug, PartialEq, Eq)]
pub struct Chosen {
    pub place: usize,
    pub atom: usize,
}

// The place of a true literal of a true clause: the old one where it is true.
fn chosen_place(old: Option<usize>, clause: &[PackedLit], v: &Valuation) -> usize
    requires place { IfSome old (λ p. (0 < p) × (p ≤ length clause.now)) }
    requires holds { IsTrueClause (IsHeld v.now) clause.now }
    ensures { IsTrueAt clause.now v.now result }
{
    match choose_among(old, clause, v) {
        Some(place) => place,
        None => unreachable!(),
    }
}

/// The choice of a true literal of a true clause: that at the old place where it is true.
pub fn chosen_literal(old: Option<usize>, clause: &[PackedLit], v: &Valuation) -> Chosen
    requires place { IfSome old (λ p. (0 < p) × (p ≤ length clause.now)) }
    requires holds { IsTrueClause (IsHeld v.now) clause.now }
    ensures { IsChoice clause.now v.now result.place result.atom }
{
    let place = chosen_place(old, clause, v);
    Chosen {
        place,
        atom: clause[place - 1].lit().atom,
    }
}

fn add_user(users: &mut Vec<Users>, atom: usize, n: usize) -> Result<(), Memory>
    requires { atom < length users.old.items }
    ensures { OnOk result (users.new.items ≡ slice_set users.old.items atom (slice_index_or users.old.items atom [] ++ n ∷ [])) }
{
    let n = small(n)?;
    users[atom].push(n)
}

// The places in a list as certificates have it.
fn list_of_places(alloc: Global, places: &[u32]) -> Result<PlaceList, Memory>
    ensures { IfOk result (λ list. list ≡ places.now) }
{
    let mut list = Vec::with_capacity(alloc, places.len())?;
    for place in places {
        list.push(*place as usize)?;
    }
    Ok(PlaceList::from(list))
}

/// For each of the first entries the place of its selected literal, counted from 1, and for each numbered atom the entries that
/// may have it selected: after a solve those of the atoms that changed are chosen again, and no others. The entries after
/// the last solve have no place yet.
#[derive(Drop)]
pub struct Selection {
    places: Vec<u32>,
    users: Vec<Users>,
}

impl Model for Selection {
    ghost use Rattle.instgen_run.specs.Selections.{Placing};

    ghost Value = { Placing };

    ghost view = { λ s. record { places = s.places.items; users = s.users.items } };
}

impl Selection {
    /// No places.
    pub fn new(alloc: Global) -> Selection
        ensures { result ≡ record { places = []; users = [] } }
    {
        Selection {
            places: Vec::new(alloc),
            users: Vec::new(alloc),
        }
    }

    /// How many entries have places.
    pub fn len(&self) -> usize
        ensures { result ≡ length self.now.places }
    {
        self.places.len()
    }

    /// The place of entry `n`.
    pub fn place_of(&self, n: usize) -> usize
        requires { (0 < n) × (n ≤ length self.now.places) }
        ensures { at_number self.now.places n ≡ Some result }
    {
        self.places[n - 1] as usize
    }

    /// Whether more than one entry may have the atom selected.
    pub fn is_shared(&self, atom: usize) -> bool {
        match self.users.get(atom) {
            None => false,
            Some(users) => users.as_slice().len() > 1,
        }
    }

    /// Makes lists of users for so many atoms.
    pub fn make_users(&mut self, alloc: Global, count: usize) -> Result<(), Memory>
        ensures places { OnOk result (self.new.places ≡ self.old.places) }
        ensures count { OnOk result (count ≤ length self.new.users) }
        ensures users { OnOk result (AreUsersKept self.old.users self.new.users) }
    {
        for _ in self.users.len()..count {
            self.users.push(Users::new(alloc))?;
        }
        Ok(())
    }

    /// The users of the atom, taken out.
    pub fn take_users(&mut self, alloc: Global, atom: usize) -> Users
        requires { atom < length self.old.users }
        ensures taken { slice_get self.old.users atom ≡ Some result }
        ensures rest { self.new ≡ record { places = self.old.places; users = slice_set self.old.users atom [] } }
    {
        replace(&mut self.users[atom], Users::new(alloc))
    }

    /// Selects the literal for entry `n`. It lacks memory where a number needs more than four bytes.
    pub fn select(&mut self, n: usize, chosen: Chosen) -> Result<(), Memory>
        requires within { (0 < n) × (n ≤ length self.old.places) }
        requires atom { chosen.atom < length self.old.users }
        ensures { OnOk result (self.new ≡ record { places = slice_set self.old.places (n - 1) chosen.place; users = slice_set self.old.users chosen.atom (slice_index_or self.old.users chosen.atom [] ++ n ∷ []) }) }
    {
        self.places[n - 1] = small(chosen.place)?;
        add_user(&mut self.users, chosen.atom, n)
    }

    /// Selects the literal for the next entry, which has no place yet.
    pub fn select_next(&mut self, chosen: Chosen) -> Result<(), Memory>
        requires atom { chosen.atom < length self.old.users }
        ensures { OnOk result (self.new ≡ record { places = self.old.places ++ chosen.place ∷ []; users = slice_set self.old.users chosen.atom (slice_index_or self.old.users chosen.atom [] ++ suc (length self.old.places) ∷ []) }) }
    {
        self.places.push(small(chosen.place)?)?;
        add_user(&mut self.users, chosen.atom, self.places.len())
    }

    /// The places, as certificates have them.
    pub fn place_list(&self, alloc: Global) -> Result<PlaceList, Memory>
        ensures { IfOk result (λ list. list ≡ self.now.places) }
    {
        list_of_places(alloc, &self.places)
    }
}
