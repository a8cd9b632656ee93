// The lists of a certificate into which items are read, and which item may come next.
ghost use Rattle.std.specs.Prelude.{◌≡◌, ◌↔◌, ◌<◌, ◌≤◌, ◌^◌, ◌++◌, [], suc, length, IsTrue, OnOk, slice_get, option_copied};
ghost use Rattle.cert_items.specs.declared.group.Group.TheVariants.{Input as FirstGroup};
ghost use Rattle.cert_items.specs.Items.{rank_of};
ghost use Rattle.cert_reader.specs.Groups.{base_count, count_of, names_in, IsInTurn, TakesTurn, IsAllShown, IsNextOf, pushed};

use cert_items::{Group, Note, TextShape};
use cert_values::{
    ByList, Cover, CoverList, GroundLine, GroundLineList, GroundStep, GroundStepList, Member,
    MemberList,
};
use inst_logic::{Memory, NameList, PlaceList};
use std::alloc::Global;
use term_bank::{IdClause, IdClauseList};

/// The items that were read, in the lists of a certificate, and the group of the last one; before there is one it is that of the
/// inputs, which come first. The clauses of items that show an input or axiom are that input or axiom, and have no list.
#[derive(Drop)]
pub struct Groups {
    pub inputs: IdClauseList,
    pub names: NameList,
    pub axioms: IdClauseList,
    pub members: MemberList,
    pub places: PlaceList,
    pub grounds: IdClauseList,
    pub lines: GroundLineList,
    pub steps: GroundStepList,
    pub shown: ByList,
    pub covers: CoverList,
    pub last: Group,
}

fn rank(group: Group) -> usize
    ensures { result ≡ rank_of group }
{
    match group {
        Group::Input => 0,
        Group::Axiom => 1,
        Group::Member => 2,
        Group::Ground => 3,
        Group::Step => 4,
        Group::Shown => 5,
        Group::Cover => 6,
    }
}

fn same_clause(c: &IdClause, d: &IdClause) -> bool
    ensures { IsTrue result ↔ (c.now ≡ d.now) }
{
    c == d
}

impl Groups {
    /// No items. It takes no memory.
    pub fn new(alloc: Global) -> Groups
        ensures { result ≡ record { inputs = []; names = []; axioms = []; members = []; places = []; grounds = []; lines = []; steps = []; shown = []; covers = []; last = FirstGroup } }
    {
        Groups {
            inputs: IdClauseList::new(alloc),
            names: NameList::new(alloc),
            axioms: IdClauseList::new(alloc),
            members: MemberList::new(alloc),
            places: PlaceList::new(alloc),
            grounds: IdClauseList::new(alloc),
            lines: GroundLineList::new(alloc),
            steps: GroundStepList::new(alloc),
            shown: ByList::new(alloc),
            covers: CoverList::new(alloc),
            last: Group::Input,
        }
    }

    // Whether there are so many items of the group. The sum of two lengths need not be a `usize`.
    fn has(&self, group: Group, count: usize) -> bool
        ensures { IsTrue result ↔ (count ≡ count_of group self.now) }
    {
        match group {
            Group::Input => count == self.inputs.len(),
            Group::Axiom => count == self.axioms.len(),
            Group::Member => count == self.members.len(),
            Group::Ground => {
                count >= self.grounds.len() && count - self.grounds.len() == self.lines.len()
            }
            Group::Step => count == self.steps.len(),
            Group::Shown => count == self.shown.len(),
            Group::Cover => count == self.covers.len(),
        }
    }

    // Whether every input and axiom is shown.
    fn is_all_shown(&self) -> bool
        ensures { IsTrue result ↔ IsAllShown self.now }
    {
        self.inputs.len().checked_add(self.axioms.len()) == Some(self.shown.len())
    }

    // Whether there may be one more input or axiom: so many items that show them can have numbers.
    fn may_grow(&self) -> bool
        ensures { IsTrue result ↔ (suc (base_count self.now) < 2 ^ 64) }
    {
        match self.inputs.len().checked_add(self.axioms.len()) {
            None => false,
            Some(count) => count < usize::MAX,
        }
    }

    // The clause of the first input or axiom that is not shown.
    fn next_shown(&self) -> Option<&IdClause>
        ensures { option_copied result ≡ slice_get (self.now.inputs ++ self.now.axioms) (length self.now.shown) }
    {
        let shown = self.shown.len();
        let inputs = self.inputs.len();
        if shown < inputs {
            self.inputs.get(shown)
        } else {
            self.axioms.get(shown - inputs)
        }
    }

    // Whether the clause is that of the input or axiom that is to be shown next.
    fn is_next(&self, clause: &IdClause) -> bool
        ensures { IsTrue result ↔ IsNextOf self.now clause.now }
    {
        match self.next_shown() {
            None => false,
            Some(other) => same_clause(other, clause),
        }
    }

    // Whether an item of the group with this clause is in turn, where covers are named.
    fn is_in_turn(&self, group: Group, clause: &IdClause) -> bool
        ensures { IsTrue result ↔ IsInTurn group self.now clause.now }
    {
        match group {
            Group::Input | Group::Axiom => self.may_grow(),
            Group::Member | Group::Ground | Group::Step => true,
            Group::Shown => self.is_next(clause),
            Group::Cover => self.is_all_shown(),
        }
    }

    /// Whether the items may be all of a text of the shape: where covers are named, every input and axiom is shown.
    pub fn is_complete(&self, shape: TextShape) -> bool
        ensures { IsTrue result ↔ (IsTrue (names_in shape) → IsAllShown self.now) }
    {
        !shape.names_covers() || self.is_all_shown()
    }

    /// Whether an item of the group may come next in a text of the shape, under this number and with this clause: its group is not
    /// over, the numbers of a group count from 1, and it is in turn.
    pub fn may_take(&self, shape: TextShape, group: Group, number: usize, clause: &IdClause) -> bool
        ensures { IsTrue result ↔ ((rank_of self.now.last ≤ rank_of group) × (number ≡ suc (count_of group self.now)) × TakesTurn shape group self.now clause.now) }
    {
        rank(self.last) <= rank(group)
            && number != 0
            && self.has(group, number - 1)
            && (!shape.names_covers() || self.is_in_turn(group, clause))
    }

    /// Puts the item behind the others of its group.
    pub fn push(&mut self, note: Note, clause: IdClause) -> Result<(), Memory>
        ensures { OnOk result (self.new ≡ pushed note clause self.old) }
    {
        match note {
            Note::Named(name) => {
                self.last = Group::Input;
                self.names.push(name)?;
                self.inputs.push(clause)?;
            }
            Note::Equality => {
                self.last = Group::Axiom;
                self.axioms.push(clause)?;
            }
            Note::Member(origin) => {
                self.last = Group::Member;
                self.members.push(Member { clause, origin })?;
            }
            Note::Selected(origin, place) => {
                self.last = Group::Member;
                self.places.push(place)?;
                self.members.push(Member { clause, origin })?;
            }
            Note::Ground => {
                self.last = Group::Ground;
                self.grounds.push(clause)?;
            }
            Note::GroundBy(input, terms) => {
                self.last = Group::Ground;
                self.lines.push(GroundLine {
                    clause,
                    input,
                    terms,
                })?;
            }
            Note::Hinted(hints) => {
                self.last = Group::Step;
                self.steps.push(GroundStep { clause, hints })?;
            }
            Note::InputBy(by) => {
                self.last = Group::Shown;
                self.shown.push(by)?;
            }
            Note::SideBy {
                left,
                right,
                side,
                by,
            } => {
                self.last = Group::Cover;
                let cover = Cover {
                    left,
                    right,
                    side,
                    clause,
                    by,
                };
                self.covers.push(cover)?;
            }
        }
        Ok(())
    }
}
