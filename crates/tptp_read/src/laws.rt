// Laws of texts: the grammar leaves no choice, so what the parser finds is the reading of a text and not one of several.
ghost use Rattle.std.specs.Prelude.{ℕ, List, All};
ghost use Rattle.tptp_read.specs.declared.statement.Statement.{Statement};
ghost use Rattle.tptp_read.specs.Atoms.{IsDecidedAtom};
ghost use Rattle.tptp_read.specs.Names.{HasReadableNames};
ghost use Rattle.tptp_read.specs.Text.{IsDecided, IsFormedStatement, Readable};

/// Each text is readable or offends, never both, and in one way.
pub fn one_reading()
    ensures { (text : List ℕ) → IsDecided text }
{}

/// Each text reads as one ground atom or has a fault, never both, and in one way.
pub fn one_atom()
    ensures { (text : List ℕ) → IsDecidedAtom text }
{}

/// The statements of a readable text are well formed, and their names can be printed and read again.
pub fn readable_is_good()
    ensures formed { (text : List ℕ) (ss : List Statement) → Readable text ss → All IsFormedStatement ss }
    ensures names { (text : List ℕ) (ss : List Statement) → Readable text ss → All HasReadableNames ss }
{}
