// Worked examples of the definitions, as theorems: each function does nothing, and its clauses are closed facts.
ghost use Rattle.std.specs.Prelude.{◌≡◌, ◌∷◌, [], codes, map};
ghost use Rattle.inst_logic.specs.Printing.{clause_text};
ghost use Rattle.szs_prove.specs.Chains.{chain_clauses};
ghost use Rattle.szs_prove.specs.SizeWords.{size_lines};

/// The chains of two and of three constants, as they are printed.
pub fn small_chains()
    ensures two { map clause_text (chain_clauses 2) ≡ codes "e(c1,c2)" ∷ codes "r(c1)" ∷ codes "~r(X0) | ~e(X0,X1) | r(X1)" ∷ codes "~r(c2)" ∷ [] }
    ensures three { map clause_text (chain_clauses 3) ≡ codes "e(c1,c2)" ∷ codes "e(c2,c3)" ∷ codes "r(c1)" ∷ codes "~r(X0) | ~e(X0,X1) | r(X1)" ∷ codes "~r(c3)" ∷ [] }
{}

/// The lines of a size.
pub fn lines()
    ensures { size_lines (record { clauses = 302; members = 900; steps = 2 }) ≡ codes "% SZS status Unsatisfiable for stress\n% clauses 302\n% members 900, steps 2\n" }
{}
