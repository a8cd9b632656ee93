// What is known of the clauses of a chain.
ghost use Rattle.std.specs.Prelude.{◌≡◌, ℕ, ◌+◌, ◌^◌, ◌<◌, IsTrue, All, length};
ghost use Rattle.inst_logic.specs.Measure.{is_function_free};
ghost use Rattle.cert_format.specs.Printable.{IsPrintableClause};
ghost use Rattle.szs_prove.specs.Chains.{chain_clauses, HasNoModel};

/// No model makes a chain's clauses true: each constant would be reached from the one before, and the last is said not to be.
pub fn chains_have_no_model()
    ensures { (n : ℕ) → 0 < n → HasNoModel (chain_clauses n) }
{}

/// They are n + 2 clauses without functions, which can be printed.
pub fn chains_are_plain()
    ensures length { (n : ℕ) → 0 < n → length (chain_clauses n) ≡ n + 2 }
    ensures function_free { (n : ℕ) → IsTrue (is_function_free (chain_clauses n)) }
    ensures printable { (n : ℕ) → n < 2 ^ 64 → All IsPrintableClause (chain_clauses n) }
{}
