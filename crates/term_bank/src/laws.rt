// Laws of banks that grow: what is known of ids stays so over every call that adds trees. Callers name these contracts and
// need not know how a bank stores its trees.
ghost use Rattle.std.specs.Prelude.{◌≡◌, ◌++◌, ◌∷◌, [], ℕ, List, length, map, take};
ghost use Rattle.std.specs.List.{All};
ghost use Rattle.inst_logic.specs.Tree.{Tree};
ghost use Rattle.inst_logic.specs.WellFormed.{IsAtom};
ghost use Rattle.inst_logic.specs.declared.signed.Signed.{Signed};
ghost use Rattle.term_bank.specs.Forest.{Forest, AreFormed, Extends, IsAt, AreIds, IsClauseOf, tree_at, clause_at};

/// A bank extends itself, and what extends an extension extends the first.
pub fn extensions()
    ensures itself { (f : Forest) → Extends f f }
    ensures transitive { (f g h : Forest) → Extends f g → Extends g h → Extends f h }
{}

/// Ids keep their trees as the bank grows.
pub fn trees_stay()
    ensures at { (f g : Forest) (id : ℕ) (t : Tree) → Extends f g → IsAt f id t → IsAt g id t }
    ensures ids { (f g : Forest) (ids : List ℕ) → Extends f g → AreIds f ids → AreIds g ids }
    ensures trees { (f g : Forest) (ids : List ℕ) → Extends f g → AreIds f ids → map (tree_at g) ids ≡ map (tree_at f) ids }
{}

/// Clauses of ids stand for the same clauses as the bank grows, and their atoms stay atoms.
pub fn clauses_stay()
    ensures ids { (f g : Forest) (c : List (Signed ℕ)) → Extends f g → IsClauseOf f c → IsClauseOf g c }
    ensures trees { (f g : Forest) (c : List (Signed ℕ)) → Extends f g → IsClauseOf f c → clause_at g c ≡ clause_at f c }
    ensures atoms { (f g : Forest) (c : List (Signed ℕ)) → Extends f g → IsClauseOf f c → All (λ l. IsAtom (tree_at f l.atom)) c → All (λ l. IsAtom (tree_at g l.atom)) c }
{}

/// Lists of such clauses stay too, and may take one more clause of the grown bank at their end.
pub fn lists_stay()
    ensures ids { (f g : Forest) (cs : List (List (Signed ℕ))) → Extends f g → All (IsClauseOf f) cs → All (IsClauseOf g) cs }
    ensures trees { (f g : Forest) (cs : List (List (Signed ℕ))) → Extends f g → All (IsClauseOf f) cs → map (clause_at g) cs ≡ map (clause_at f) cs }
    ensures atoms { (f g : Forest) (cs : List (List (Signed ℕ))) → Extends f g → All (IsClauseOf f) cs → All (All (λ l. IsAtom (tree_at f l.atom))) cs
        → All (All (λ l. IsAtom (tree_at g l.atom))) cs }
    ensures one_more { (f g : Forest) (cs : List (List (Signed ℕ))) (c : List (Signed ℕ)) → Extends f g → All (IsClauseOf f) cs → IsClauseOf g c
        → All (IsClauseOf g) (cs ++ c ∷ []) }
    ensures one_more_tree { (f g : Forest) (cs : List (List (Signed ℕ))) (c : List (Signed ℕ)) → Extends f g → All (IsClauseOf f) cs
        → map (clause_at g) (cs ++ c ∷ []) ≡ map (clause_at f) cs ++ clause_at g c ∷ [] }
{}

/// A bank that is cut back to the trees that it had extends what it was then, and its trees stay terms and atoms.
pub fn cut_backs()
    ensures extends { (f g h : Forest) → Extends f g → h.trees ≡ take (length f.trees) g.trees → h.symbols ≡ g.symbols → Extends f h }
    ensures formed { (f h : Forest) (len : ℕ) → AreFormed f → h.trees ≡ take len f.trees → AreFormed h }
{}
