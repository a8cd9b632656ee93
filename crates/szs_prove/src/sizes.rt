// How large a refutation is.
ghost use Rattle.std.specs.Prelude.{◌≡◌};
ghost use Rattle.outside_io.specs.Pieces.{text_of};
ghost use Rattle.cert_values.specs.Values.{refutation_of};
ghost use Rattle.szs_prove.specs.SizeWords.{size_lines};
ghost use Rattle.szs_prove.specs.Sizes.{size_of};

use cert_values::Refutation;
use outside_io::{Line, Piece};

/// How many input clauses, members and derivation steps a refutation has.
#[derive(Clone, Copy, Debug, PartialEq, Eq)]
pub struct Size {
    pub clauses: usize,
    pub members: usize,
    pub steps: usize,
}

/// The size of a refutation.
pub fn size_of(r: &Refutation) -> Size
    ensures { result ≡ size_of (refutation_of r.now) }
{
    Size {
        clauses: r.base.inputs.len(),
        members: r.base.members.len(),
        steps: r.steps.len(),
    }
}

/// The status line and the numbers in two further lines.
pub fn size_lines<'a>(size: Size) -> Line<'a>
    ensures { text_of result ≡ size_lines size }
{
    [
        Piece::Text(b"% SZS status Unsatisfiable for stress\n% clauses "),
        Piece::Number(size.clauses as u64),
        Piece::Text(b"\n% members "),
        Piece::Number(size.members as u64),
        Piece::Text(b", steps "),
        Piece::Number(size.steps as u64),
        Piece::Text(b"\n"),
    ]
}
