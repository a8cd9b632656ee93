// Laws of tokens: a text leaves no choice of its next token and of where its tokens end. So whoever reads one by one misses
// no other reading.
ghost use Rattle.std.specs.Prelude.{◌≡◌, ℕ, List, []};
ghost use Rattle.tptp_read.specs.Skipped.{Skips};
ghost use Rattle.tptp_read.specs.Stream.{IsEnd, IsDone, IsDecidedToken};

/// A text begins, behind blanks and comments, with one token and no other, or with none.
pub fn one_token()
    ensures { (text : List ℕ) → IsDecidedToken text }
{}

/// Where nothing but blanks and comments is left, no token begins; and a text ends at one place.
pub fn one_end()
    ensures done { (text : List ℕ) → IsDone text → IsEnd text [] }
    ensures same { (text r s : List ℕ) → IsEnd text r → IsEnd text s → r ≡ s }
{}
