// Worked examples of the definitions, as theorems: each function does nothing, and its clauses are closed facts.
ghost use Rattle.std.specs.Prelude.{◌≡◌, ◌∷◌, ◌++◌, [], codes, true, false, Some, None};
ghost use Rattle.cert_format.specs.declared.complaint.Complaint.TheVariants.{Member as Derived, Ground, Step as Shown, NotEmpty, Place, Input, Pair, Cover as Named};
ghost use Rattle.cert_format.specs.Dues.{AreDue};
ghost use Rattle.cert_format.specs.Validity.{RefutationPasses, SaturationPasses, CoversPass, IsFirstComplaint, IsValidRefutation, IsValidSaturation, IsValidByLines, IsNamed};
ghost use Rattle.cert_format.specs.Printable.{IsPrintable, IsTextName};
ghost use Rattle.cert_format.specs.Certificate.{first_refutation, refutation, saturation, covered, by_tautology, left_side};
ghost use Rattle.cert_format.specs.Text.{refutation_text, lined_text, saturation_text, covered_text};
ghost use Rattle.cert_format.specs.Lines.{origin_text};
ghost use Rattle.cert_format.specs.Upgrades.{IsUpgrade};
ghost use Rattle.cert_format.specs.LineMachine.{selected, ground_of, ground_by, input_by, side_by, fits, opened, body, done, version, item, closing};
ghost use Rattle.cert_format.specs.Formats.{step};
ghost use Rattle.cert_format.specs.Examples.{text_of_lines, empty_saturation, chain_saturation, instance_refutation, one_step, tie_with, tie_entries, wrong_entries, changed_refutation, lined_refutation, tie_saturation, tie_dues, tie_named, tie_covers, turned_covers, header_for, one_input};
ghost use Rattle.inst_calculus.specs.Entries.{input, lemma};
ghost use Rattle.inst_calculus.specs.Examples.{entry, tie_one, tie_two, p_always, not_p_c};

/// Whole texts, byte by byte.
pub fn texts()
    ensures empty { saturation_text 1 (codes "empty.p") empty_saturation ≡ text_of_lines (codes "% SZS status Satisfiable for empty.p"
        ∷ codes "% SZS output start Saturation for empty.p"
        ∷ codes "% instgen certificate 1"
        ∷ codes "% SZS output end Saturation for empty.p" ∷ []) }
    ensures saturation { saturation_text 1 (codes "chain.p") chain_saturation ≡ text_of_lines (codes "% SZS status Satisfiable for chain.p"
        ∷ codes "% SZS output start Saturation for chain.p"
        ∷ codes "% instgen certificate 1"
        ∷ codes "cnf(i1,axiom,p(X0) | ~q(X0),named(a))."
        ∷ codes "cnf(i2,axiom,q(X0),named(b))."
        ∷ codes "cnf(m1,plain,p(X0) | ~q(X0),input(1),[selected(1)])."
        ∷ codes "cnf(m2,plain,q(X0),input(2),[selected(1)])."
        ∷ codes "% SZS output end Saturation for chain.p" ∷ []) }
    ensures refutation { refutation_text 1 (codes "r.p") (instance_refutation (one_step 2 3)) ≡ text_of_lines (codes "% SZS status Unsatisfiable for r.p"
        ∷ codes "% SZS output start CNFRefutation for r.p"
        ∷ codes "% instgen certificate 1"
        ∷ codes "% ground constant bot_0"
        ∷ codes "cnf(i1,axiom,p(X0),named(one))."
        ∷ codes "cnf(i2,axiom,~p(c),named(two))."
        ∷ codes "cnf(m1,plain,p(X0),input(1))."
        ∷ codes "cnf(m2,plain,~p(c),input(2))."
        ∷ codes "cnf(m3,plain,p(c),inst(m1,1,m2,1))."
        ∷ codes "cnf(g1,plain,p(bot_0),ground(m1))."
        ∷ codes "cnf(g2,plain,~p(c),ground(m2))."
        ∷ codes "cnf(g3,plain,p(c),ground(m3))."
        ∷ codes "cnf(r1,plain,$false,rup([g2,g3]))."
        ∷ codes "% SZS output end CNFRefutation for r.p" ∷ []) }
    ensures tie { saturation_text 1 (codes "tie.p") (tie_with tie_entries (1 ∷ 1 ∷ 2 ∷ 2 ∷ [])) ≡ text_of_lines (codes "% SZS status Satisfiable for tie.p"
        ∷ codes "% SZS output start Saturation for tie.p"
        ∷ codes "% instgen certificate 1"
        ∷ codes "cnf(i1,axiom,p(X0,a) | q(X0),named(one))."
        ∷ codes "cnf(i2,axiom,~p(b,X0) | s(X0),named(two))."
        ∷ codes "cnf(m1,plain,p(X0,a) | q(X0),input(1),[selected(1)])."
        ∷ codes "cnf(m2,plain,~p(b,X0) | s(X0),input(2),[selected(1)])."
        ∷ codes "cnf(m3,plain,p(b,a) | q(b),inst(m1,1,m2,1),[selected(2)])."
        ∷ codes "cnf(m4,plain,~p(b,a) | s(a),inst(m2,1,m1,1),[selected(2)])."
        ∷ codes "% SZS output end Saturation for tie.p" ∷ []) }
    ensures lines { lined_text 3 (codes "r.p") lined_refutation ≡ text_of_lines (codes "% SZS status Unsatisfiable for r.p"
        ∷ codes "% SZS output start CNFRefutation for r.p"
        ∷ codes "% instgen certificate 3"
        ∷ codes "% ground constant bot_0"
        ∷ codes "cnf(i1,axiom,p(X0),named(one))."
        ∷ codes "cnf(i2,axiom,~p(c),named(two))."
        ∷ codes "cnf(m1,plain,p(X0),input(1))."
        ∷ codes "cnf(m2,plain,~p(c),input(2))."
        ∷ codes "cnf(m3,plain,p(c),inst(m1,1,m2,1))."
        ∷ codes "cnf(g1,plain,p(bot_0),ground(1,[bot_0]))."
        ∷ codes "cnf(g2,plain,~p(c),ground(2,[]))."
        ∷ codes "cnf(g3,plain,p(c),ground(1,[c]))."
        ∷ codes "cnf(r1,plain,$false,rup([g2,g3]))."
        ∷ codes "% SZS output end CNFRefutation for r.p" ∷ []) }
    ensures covers { covered_text 3 (codes "tie.p") (tie_named tie_covers) ≡ text_of_lines (codes "% SZS status Satisfiable for tie.p"
        ∷ codes "% SZS output start Saturation for tie.p"
        ∷ codes "% instgen certificate 3"
        ∷ codes "cnf(i1,axiom,p(X0,a) | q(X0),named(one))."
        ∷ codes "cnf(i2,axiom,~p(b,X0) | s(X0),named(two))."
        ∷ codes "cnf(m1,plain,p(X0,a) | q(X0),input(1),[selected(1)])."
        ∷ codes "cnf(m2,plain,~p(b,X0) | s(X0),input(2),[selected(1)])."
        ∷ codes "cnf(m3,plain,p(b,a) | q(b),inst(m1,1,m2,1),[selected(2)])."
        ∷ codes "cnf(m4,plain,~p(b,a) | s(a),inst(m2,1,m1,1),[selected(2)])."
        ∷ codes "cnf(q1,plain,p(X0,a) | q(X0),part(m1,[X0]))."
        ∷ codes "cnf(q2,plain,~p(b,X0) | s(X0),part(m2,[X0]))."
        ∷ codes "cnf(c1,plain,p(b,a) | q(b),cover(m1,m2,left),[variant(m3)])."
        ∷ codes "cnf(c2,plain,~p(b,a) | s(a),cover(m1,m2,right),[variant(m4)])."
        ∷ codes "% SZS output end Saturation for tie.p" ∷ []) }
    ensures part { origin_text (lemma 1 2 3 4 (1 ∷ 3 ∷ []) (2 ∷ [])) ≡ codes "lemma(m1,2,m3,4,[1,3],[m2])" }
{}

/// Certificates with a text, and a name that may stand in it.
pub fn printable()
    ensures empty { IsPrintable 1 (saturation empty_saturation) }
    ensures saturation { IsPrintable 1 (saturation chain_saturation) }
    ensures refutation { IsPrintable 1 (first_refutation (instance_refutation (one_step 2 3))) }
    ensures tie { IsPrintable 1 (saturation (tie_with tie_entries (1 ∷ 1 ∷ 2 ∷ 2 ∷ []))) }
    ensures second { IsPrintable 2 (saturation chain_saturation) }
    ensures lines { IsPrintable 2 (refutation lined_refutation) × IsPrintable 3 (refutation lined_refutation) }
    ensures covers { IsPrintable 3 (covered (tie_named tie_covers)) }
    ensures no_lines { ¬ IsPrintable 1 (refutation lined_refutation) }
    ensures name { IsTextName (codes "r.p") }
    ensures no_name { ¬ IsTextName [] }
    ensures line_feed { ¬ IsTextName (114 ∷ 10 ∷ []) }
    ensures delete { ¬ IsTextName (127 ∷ []) }
{}

/// Certificates for which no complaint applies.
pub fn valid()
    ensures empty { IsValidSaturation empty_saturation }
    ensures saturation { IsValidSaturation chain_saturation }
    ensures refutation { IsValidRefutation (instance_refutation (one_step 2 3)) }
    ensures tie { IsValidSaturation (tie_with tie_entries (1 ∷ 1 ∷ 2 ∷ 2 ∷ [])) }
    ensures other_order { IsValidRefutation (instance_refutation (one_step 3 2)) }
{}

/// What a changed refutation is refused for: `p(a)` is not the first member with the constant for its variable, `p(bot_0)` and
/// `~p(c)` do not show the empty clause, and without steps nothing does.
pub fn complaints()
    ensures clause { IsFirstComplaint (RefutationPasses changed_refutation) (Ground 1) }
    ensures step { IsFirstComplaint (RefutationPasses (instance_refutation (one_step 1 2))) (Shown 1) }
    ensures not_empty { IsFirstComplaint (RefutationPasses (instance_refutation [])) NotEmpty }
{}

/// What changed copies of the saturation of `p(X0,a) | q(X0)` and `~p(b,X0) | s(X0)` are refused for: the first member alone, the
/// two inputs alone, the last two members with their first literals selected, a wrong third member, and a place past the end.
pub fn changed_saturations()
    ensures input { IsFirstComplaint (SaturationPasses (tie_with (entry tie_one (input 1) ∷ []) (1 ∷ []))) (Input 2) }
    ensures pair { IsFirstComplaint (SaturationPasses (tie_with (entry tie_one (input 1) ∷ entry tie_two (input 2) ∷ []) (1 ∷ 1 ∷ []))) (Pair 1 2) }
    ensures later_pair { IsFirstComplaint (SaturationPasses (tie_with tie_entries (1 ∷ 1 ∷ 1 ∷ 1 ∷ []))) (Pair 3 4) }
    ensures member { IsFirstComplaint (SaturationPasses (tie_with wrong_entries (1 ∷ 1 ∷ 2 ∷ 2 ∷ []))) (Derived 3) }
    ensures place { IsFirstComplaint (SaturationPasses (tie_with tie_entries (3 ∷ 1 ∷ 2 ∷ 2 ∷ []))) (Place 1) }
{}

/// A refutation whose ground clauses name their inputs and terms, and a saturation that names its covers, with what is due in it.
pub fn certificates_with_names()
    ensures lines { IsValidByLines lined_refutation }
    ensures due { AreDue tie_saturation tie_dues }
    ensures covers { IsNamed (tie_named tie_covers) }
{}

/// Covers name the lower member first, in their order, and none may be missing or too many.
pub fn changed_covers()
    ensures turned { IsFirstComplaint (CoversPass (tie_named turned_covers)) (Named 2) }
    ensures missing { IsFirstComplaint (CoversPass (tie_named [])) (Named 1) }
{}

/// The ground clauses of the refutation of `p(X0)` and `~p(c)`, with their inputs and terms.
pub fn refutation_with_inputs()
    ensures { IsUpgrade (instance_refutation (one_step 2 3)) lined_refutation }
{}

/// What may follow in which format: parts of conclusions not in the first, ground clauses with their inputs and terms from the second
/// on, and the end of a saturation in the third only where each input is shown, in its place.
pub fn formats()
    ensures first_part { fits (header_for false 1) (selected (lemma 1 1 2 1 [] []) 1) ≡ false }
    ensures second_part { fits (header_for false 2) (selected (lemma 1 1 2 1 [] []) 1) ≡ true }
    ensures first_ground { fits (header_for true 1) ground_of ≡ true }
    ensures second_ground { fits (header_for true 2) ground_of ≡ false }
    ensures second_line { fits (header_for true 2) (ground_by 1 []) ≡ true }
    ensures third { step (opened false (codes "r.p")) (version 3) ≡ Some (body (header_for false 3) []) }
    ensures fourth { step (opened false (codes "r.p")) (version 4) ≡ None }
    ensures missing { step (body (header_for false 3) one_input) (closing false (codes "r.p")) ≡ None }
    ensures wrong { step (body (header_for false 3) one_input) (item 1 not_p_c (input_by by_tautology)) ≡ None }
    ensures shown { step (body (header_for false 3) one_input) (item 1 p_always (input_by by_tautology))
        ≡ Some (body (header_for false 3) (one_input ++ record { clause = p_always; note = input_by by_tautology } ∷ [])) }
    ensures complete { step (body (header_for false 3) (one_input ++ record { clause = p_always; note = input_by by_tautology } ∷ [])) (closing false (codes "r.p"))
        ≡ Some (done (header_for false 3) (one_input ++ record { clause = p_always; note = input_by by_tautology } ∷ [])) }
    ensures early { step (body (header_for false 3) one_input) (item 1 p_always (side_by 1 2 left_side by_tautology)) ≡ None }
{}
