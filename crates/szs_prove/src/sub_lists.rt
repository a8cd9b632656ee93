// Runs on the sub-lists of the clauses of a problem. Each has a solver and indexes of its own.
ghost use Rattle.std.specs.Prelude.{◌≡◌, ◌<◌, length, remove, IsTrue, IfOk, MatchOption};
ghost use Rattle.core_min.specs.Cores.{ArePlaces, HasRefutation, HasSelection, IsNeeded, clauses_at};
ghost use Rattle.core_min.specs.Verdicts.{IsCited};
ghost use Rattle.cert_front.specs.Kinds.{covered_value, refutation_value};
ghost use Rattle.szs_prove.specs.Decisions.{IsShownBy};
ghost use Rattle.szs_prove.specs.Proving.{HasCertificate};
ghost use Rattle.szs_prove.specs.SubProblems.{IsDecidable, problem_at};

use crate::certificates::{certificate_of, cited_clauses, refutation_of, saturation_of};
use crate::marking::marked_places;
use crate::sub_problem::problem_at;
use cert_check::{CheckedCovered, CheckedRefutation};
use core_min::{SubListTest, Verdict};
use inst_logic::{ByteList, ListOf, Memory, NumberList, Problem};
use std::alloc::Global;
use std::marker::Model;

/// The clauses of a problem whose sub-lists are all decided. Contracts see the problem.
#[derive(Drop)]
pub struct SubLists<'a> {
    alloc: Global,
    problem: &'a Problem,
}

impl<'a> Model for SubLists<'a> {
    ghost use Rattle.inst_logic.specs.declared.clause.Problem.{Problem};
    ghost use Rattle.inst_logic.specs.contracts.clause.Problem as value;
    ghost use Rattle.std.specs.Coded.{codes};
    ghost use Rattle.szs_prove.specs.SubProblems.{IsDecidable};

    ghost Value = { Problem };

    ghost coded = { Prim.hlevel (codes, value.the_row.coded) };

    ghost view = { λ s. s.problem.now };

    ghost invariant = { λ s. IsDecidable s.problem.now };
}

impl<'a> SubLists<'a> {
    pub fn new(alloc: Global, problem: &'a Problem) -> SubLists<'a>
        requires { IsDecidable problem.now }
        ensures { result ≡ problem.now }
    {
        SubLists { alloc, problem }
    }

    // The problem of the clauses at these places, with their names.
    fn at(&self, places: &[usize]) -> Result<Problem, Memory>
        requires { ArePlaces self.now.clauses places.now }
        ensures is { IfOk result (λ q. q ≡ problem_at self.now places.now) }
        ensures decidable { IfOk result IsDecidable }
    {
        let sub = problem_at(self.alloc, self.problem, places)?;
        Ok(sub)
    }

    /// The text of the certificate of all clauses, under the file's name.
    pub fn certificate(&self, file: &str) -> Result<ByteList, Memory>
        ensures { IfOk result (HasCertificate self.now file.now) }
    {
        certificate_of(self.alloc, file, self.problem)
    }

    /// The text of the certificate of the clauses at these places, under the file's name.
    pub fn certificate_at(&self, file: &str, places: &[usize]) -> Result<ByteList, Memory>
        requires { ArePlaces self.now.clauses places.now }
        ensures { IfOk result (HasCertificate (problem_at self.now places.now) file.now) }
    {
        let sub = self.at(places)?;
        certificate_of(self.alloc, file, &sub)
    }

    /// The text of the certificate of the clauses at all of these places but the one at `i`, counted from 0.
    pub fn certificate_without(
        &self,
        file: &str,
        places: &[usize],
        i: usize,
    ) -> Result<ByteList, Memory>
        requires places { ArePlaces self.now.clauses places.now }
        requires within { i < length places.now }
        ensures { IfOk result (HasCertificate (problem_at self.now (remove places.now i)) file.now) }
    {
        let mut rest = Vec::from_slice(self.alloc, places)?;
        rest.remove(i);
        self.certificate_at(file, rest.as_slice())
    }

    /// The saturation of all clauses, which are satisfiable.
    pub fn saturation(&self) -> Result<CheckedCovered, Memory>
        requires { HasSelection self.now.clauses }
        ensures { IfOk result (λ c. IsShownBy self.now (covered_value c)) }
    {
        saturation_of(self.alloc, self.problem)
    }

    /// The refutation of the clauses at these places.
    pub fn refutation_at(&self, places: &[usize]) -> Result<CheckedRefutation, Memory>
        requires places { ArePlaces self.now.clauses places.now }
        requires refuted { HasRefutation (clauses_at self.now.clauses places.now) }
        ensures { IfOk result (λ c. IsShownBy (problem_at self.now places.now) (refutation_value c)) }
    {
        let sub = self.at(places)?;
        refutation_of(self.alloc, &sub)
    }

    // The saturation of the clauses at these places.
    fn saturation_at(&self, places: &[usize]) -> Result<CheckedCovered, Memory>
        requires places { ArePlaces self.now.clauses places.now }
        requires satisfiable { HasSelection (clauses_at self.now.clauses places.now) }
        ensures { IfOk result (λ c. IsShownBy (problem_at self.now places.now) (covered_value c)) }
    {
        let sub = self.at(places)?;
        saturation_of(self.alloc, &sub)
    }

    /// The saturation of the clauses at all of these places but the one at `i`, counted from 0.
    pub fn saturation_without(&self, places: &[usize], i: usize) -> Result<CheckedCovered, Memory>
        requires places { ArePlaces self.now.clauses places.now }
        requires within { i < length places.now }
        requires needed { IsNeeded self.now.clauses places.now i }
        ensures { IfOk result (λ c. IsShownBy (problem_at self.now (remove places.now i)) (covered_value c)) }
    {
        let mut rest = Vec::from_slice(self.alloc, places)?;
        rest.remove(i);
        self.saturation_at(rest.as_slice())
    }

    // For each of the clauses at these places whether their refutation cites it.
    fn cited_at(&self, places: &[usize]) -> Result<Option<ListOf<bool>>, Memory>
        requires { ArePlaces self.now.clauses places.now }
        ensures { IfOk result (λ marks. MatchOption marks (HasSelection (clauses_at self.now.clauses places.now)) (λ m. HasRefutation (clauses_at self.now.clauses places.now) × (length m ≡ length places.now))) }
    {
        let sub = self.at(places)?;
        cited_clauses(self.alloc, &sub)
    }

    fn is_refuted(&self, places: &[usize]) -> Result<bool, Memory>
        requires { ArePlaces self.now.clauses places.now }
        ensures { IfOk result (λ refuted. IsTrue refuted → HasRefutation (clauses_at self.now.clauses places.now)) }
    {
        match self.cited_at(places)? {
            Some(_) => Ok(true),
            None => Ok(false),
        }
    }

    // The marked ones of the places where a run refutes their clauses too, since the refutation may have cited axioms that they
    // don't have; else all.
    fn refuted_places(&self, places: &[usize], marks: &[bool]) -> Result<NumberList, Memory>
        requires places { ArePlaces self.now.clauses places.now }
        requires refuted { HasRefutation (clauses_at self.now.clauses places.now) }
        requires each { length marks.now ≡ length places.now }
        ensures { IfOk result (IsCited self.now.clauses places.now) }
    {
        let some = marked_places(self.alloc, places, marks)?;
        if some.len() < places.len() && self.is_refuted(some.as_slice())? {
            return Ok(NumberList::from(some));
        }
        let all = Vec::from_slice(self.alloc, places)?;
        Ok(NumberList::from(all))
    }
}

impl<'a> SubListTest for SubLists<'a> {
    ghost clauses = { λ lists. lists.clauses };

    fn decide(&mut self, places: &[usize]) -> Result<Verdict, Memory> {
        match self.cited_at(places)? {
            Some(marks) => {
                let cited = self.refuted_places(places, marks.as_slice())?;
                Ok(Verdict::Refuted(cited))
            }
            None => Ok(Verdict::Satisfiable),
        }
    }
}
