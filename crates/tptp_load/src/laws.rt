// A law of loading: what a file gives is decided by the files, so one may speak of its problem.
ghost use Rattle.std.specs.Prelude.{◌≡◌, ℕ, List, Option};
ghost use Rattle.inst_logic.specs.declared.clause.Problem.{Problem};
ghost use Rattle.outside_io.specs.declared.library.NamedFile.{NamedFile};
ghost use Rattle.tptp_load.specs.Problems.{Loads, Refuses};
ghost use Rattle.tptp_load.specs.declared.error.LoadError.{LoadError};

use tptp_read::laws::one_reading;

/// A file gives one problem, or is refused for one reason, and not both.
pub fn one_loading()
    ensures problems { (files : List NamedFile) (name : List ℕ) (root : Option (List ℕ)) (p q : Problem) → Loads files name root p → Loads files name root q → p ≡ q }
    ensures refusals { (files : List NamedFile) (name : List ℕ) (root : Option (List ℕ)) (e f : LoadError) → Refuses files name root e → Refuses files name root f → e ≡ f }
    ensures apart { (files : List NamedFile) (name : List ℕ) (root : Option (List ℕ)) (p : Problem) (e : LoadError) → Loads files name root p → Refuses files name root e → ⊥ }
{
    one_reading();
}
