// Why deletion ends in a core: clauses are tried in order, each is dropped or kept, and what was kept stays needed as others are
// dropped.
ghost use Rattle.std.specs.Prelude.{ℕ, ◌+◌, ◌<◌, List, length, All, Contains, slice_index, remove};
ghost use Rattle.std.specs.List.{range_with_len};
ghost use Rattle.std.specs.List.Sorted.{IsStrictlyIncreasing};
ghost use Rattle.inst_logic.specs.Clauses.{TreeClause};
ghost use Rattle.core_min.specs.Cores.{clauses_at, HasRefutation, HasSelection, IsNeeded, IsCore, IsPartlyMinimal};

/// It begins with all clauses, where these are refuted.
pub fn deletion_begins()
    ensures { (cs : List TreeClause) → HasRefutation cs → IsPartlyMinimal cs (range_with_len 1 (length cs)) 0 }
{}

/// A clause without which the others are refuted is dropped.
pub fn deletion_drops()
    ensures { (cs : List TreeClause) (places : List ℕ) (done : ℕ) → IsPartlyMinimal cs places done → done < length places
        → HasRefutation (clauses_at cs (remove places done)) → IsPartlyMinimal cs (remove places done) done }
{}

/// A refuted part of the list may take its place: what was kept is in it, and stays needed.
pub fn deletion_shrinks()
    ensures { (cs : List TreeClause) (places some : List ℕ) (done : ℕ) → IsPartlyMinimal cs places done → IsStrictlyIncreasing some → All (Contains places) some
        → HasRefutation (clauses_at cs some) → IsPartlyMinimal cs some done }
{}

/// A clause without which the others are satisfiable is kept.
pub fn deletion_keeps()
    ensures { (cs : List TreeClause) (places : List ℕ) (done : ℕ) → IsPartlyMinimal cs places done → done < length places
        → IsNeeded cs places done → IsPartlyMinimal cs places (done + 1) }
{}

/// Where every clause was tried, what is left is a core.
pub fn deletion_ends()
    ensures { (cs : List TreeClause) (places : List ℕ) → IsPartlyMinimal cs places (length places) → IsCore cs places }
{}

/// Every refuted part of the list has the clauses that were kept. So a refutation may be searched for what it cites, and the
/// rest dropped at once.
pub fn needed_is_cited()
    ensures { (cs : List TreeClause) (places some : List ℕ) (done : ℕ) → IsPartlyMinimal cs places done → All (Contains places) some
        → HasRefutation (clauses_at cs some) → (i : ℕ) → i < done → Contains some (slice_index places i) }
{}

/// Each part of a core that lacks one of its places is satisfiable.
pub fn core_is_minimal()
    ensures { (cs : List TreeClause) (places some : List ℕ) → IsCore cs places → All (Contains places) some
        → (n : ℕ) → Contains places n → ¬ Contains some n → HasSelection (clauses_at cs some) }
{}
