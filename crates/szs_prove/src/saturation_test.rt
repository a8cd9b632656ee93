// Tables read off a checked saturation of the flattened form, by its truth test over trees of the selected literals.
ghost use Rattle.std.proofs.Common.{◌∙◌};
ghost use Rattle.std.specs.Prelude.{◌≡◌, ◌+◌, ◌<◌, ◌≤◌, ◌^◌, [], ℕ, length, refl, All, IfOk, OnOk, IsTrue};
ghost use Rattle.inst_logic.specs.Measure.{is_function_free};
ghost use Rattle.inst_logic.specs.WellFormed.{AreFormedClauses};
ghost use Rattle.inst_calculus.specs.Axioms.{with_axioms};
ghost use Rattle.inst_calculus.specs.Models.{Makes, SelectedClause};
ghost use Rattle.cert_format.specs.Certificate.{selected_members};
ghost use Rattle.cert_format.specs.Validity.{SelectsAt};
ghost use Rattle.term_bank.specs.Forest.{arguments_of};
ghost use Rattle.term_index.specs.State.{pairs_of};
ghost use Rattle.cert_values.specs.Values.{covered_of, saturation_of};
ghost use Rattle.cert_values.specs.Wholes.{HasPlaces, IsWholeSaturation};
ghost use Rattle.finite_model.specs.Tables.{IsModel};
ghost use Rattle.finite_model.specs.Flattening.{flattened};
ghost use Rattle.finite_model.specs.Reading.{AreRead};
ghost use Rattle.szs_prove.specs.SaturationTests.{IsReady, StaysCovered, stays_itself, stays_on};

use cert_check::CheckedCovered;
use cert_format::covers::named_is_valid;
use cert_format::laws::selected_by_number;
use cert_values::{Saturation, selected};
use finite_model::{Tables, TruthTest, flattened_form, read_tables};
use inst_logic::{Literal, Memory, Problem};
use saturation_cert::{store_selected, truth_in};
use std::alloc::Global;
use term_index::Tree;

// A checked saturation with trees of its selected literals, one for each sign.
#[derive(Drop)]
struct SaturationTest<'a> {
    alloc: Global,
    cert: &'a mut CheckedCovered,
    positive: &'a mut Tree,
    negative: &'a mut Tree,
}

impl TruthTest for SaturationTest<'_> {
    ghost members = { λ t. selected_members (saturation_of t.cert.now.cert) };

    ghost ready = { λ t. IsReady t.cert.now t.positive.now t.negative.now };

    ghost keeps = { λ s t. (t.cert.ghost_name ≡ s.cert.ghost_name) × StaysCovered s.cert.now t.cert.now };

    fn is_true(&mut self, l: &Literal) -> Result<bool, Memory> {
        let id = self.cert.atom(l);
        let cert = &self.cert.cert().cert;
        cert.base.bank.distinct();
        truth_in(self.alloc, cert, self.positive, self.negative, id?)
    }

    ghost keeps_itself = { λ t. (refl, stays_itself t.cert.now) };

    ghost keeps_on = { λ a b c h k. (k.0 ∙ h.0, stays_on a.cert.now b.cert.now c.cert.now h.1 k.1) };
}

// The selected literal of member `i`, counted from 0, has no more arguments than memory holds.
fn is_short(cert: &Saturation, i: usize)
    requires whole { IsWholeSaturation cert.now }
    requires placed { HasPlaces (saturation_of cert.now) }
    requires within { i < length cert.now.base.members }
    ensures { (m : SelectedClause) → SelectsAt (saturation_of cert.now) (i + 1) m → length (arguments_of m.selected.atom) < 2 ^ 63 }
{
    let l = selected(cert, i);
    let _args = cert.base.bank.args(l.atom);
}

// No selected literal has more arguments than memory holds.
fn are_short(cert: &Saturation)
    requires whole { IsWholeSaturation cert.now }
    requires placed { HasPlaces (saturation_of cert.now) }
    ensures { (n : ℕ) (m : SelectedClause) → SelectsAt (saturation_of cert.now) n m → length (arguments_of m.selected.atom) < 2 ^ 63 }
{
    for i in 0..cert.base.members.len() {
        is_short(cert, i);
    }
}

// Fills the trees with the selected literals.
fn fill(cert: &CheckedCovered, positive: &mut Tree, negative: &mut Tree) -> Result<(), Memory>
    requires formed { AreFormedClauses (covered_of cert.now).saturation.base.inputs }
    requires function_free { IsTrue (is_function_free (covered_of cert.now).saturation.base.inputs) }
    requires positive { pairs_of positive.old.nodes ≡ [] }
    requires negative { pairs_of negative.old.nodes ≡ [] }
    ensures ready { OnOk result (IsReady cert.now positive.new negative.new) }
    ensures makes { All (Makes (selected_members (covered_of cert.now).saturation)) (with_axioms (covered_of cert.now).saturation.base.inputs) }
{
    named_is_valid();
    selected_by_number();
    let cert = &cert.cert().cert;
    are_short(cert);
    store_selected(cert, positive, negative)
}

fn tables_by(test: &mut SaturationTest<'_>, p: &Problem, k: usize) -> Result<Tables, Memory>
    requires formed { AreFormedClauses p.now.clauses }
    requires inputs { (covered_of test.old.cert.now).saturation.base.inputs ≡ flattened k p.now.clauses }
    requires positive { pairs_of test.old.positive.now.nodes ≡ [] }
    requires negative { pairs_of test.old.negative.now.nodes ≡ [] }
    ensures model { IfOk result (IsModel k p.now.clauses) }
    ensures read { IfOk result (AreRead k p.now.clauses (selected_members (saturation_of test.old.cert.now.cert))) }
    ensures same_reference { test.new.cert.ghost_name ≡ test.old.cert.ghost_name }
    ensures stays { StaysCovered test.old.cert.now test.new.cert.now }
{
    flattened_form();
    fill(test.cert, test.positive, test.negative)?;
    read_tables(test.alloc, p, test, k)
}

/// The tables over `k` elements that are read off the saturation's truth test. They make the problem's clauses true. The
/// certificate's inputs are the clauses of the problem's flattened form. Its bank may grow, by the atoms that are asked.
pub fn tables_of(
    alloc: Global,
    cert: &mut CheckedCovered,
    p: &Problem,
    k: usize,
) -> Result<Tables, Memory>
    requires formed { AreFormedClauses p.now.clauses }
    requires inputs { (covered_of cert.old).saturation.base.inputs ≡ flattened k p.now.clauses }
    ensures model { IfOk result (IsModel k p.now.clauses) }
    ensures read { IfOk result (AreRead k p.now.clauses (selected_members (covered_of cert.old).saturation)) }
    ensures stays { StaysCovered cert.old cert.new }
{
    let mut positive = Tree::new(alloc);
    let mut negative = Tree::new(alloc);
    let mut test = SaturationTest {
        alloc,
        cert,
        positive: &mut positive,
        negative: &mut negative,
    };
    tables_by(&mut test, p, k)
}
