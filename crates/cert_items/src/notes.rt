// The notes of input clauses, of ground clauses in the first format, and of covers up to what covers them.
ghost use Rattle.std.specs.Prelude.{◌≡◌, ◌≢◌, ◌++◌, ◌∷◌, ◌<◌, ◌^◌, ℕ, List, IfSome, IfNone, IsTrue, decimal, codes};
ghost use Rattle.inst_logic.specs.Printing.{is_readable_name, name_text};
ghost use Rattle.cert_format.specs.Certificate as format;
ghost use Rattle.cert_format.specs.Lines.{side_word};
ghost use Rattle.cert_format.specs.Names.{IsNameText};
ghost use Rattle.cert_values.specs.Values.{side_of};
ghost use Rattle.cert_items.specs.Notes.{members_text, side_text};
ghost use Rattle.inst_logic.specs.Codes as byte;

use crate::mark::{mark, word};
use crate::name::name;
use crate::number::number_before;
use unify_core::Side;

/// The name of a statement as it is printed, and what follows the parenthesis behind it.
pub fn statement_name(bytes: &[u8]) -> Option<(&[u8], &[u8])>
    ensures some { IfSome result (λ r. (bytes.now ≡ codes "named(" ++ (r.0.now ++ byte.closing_parenthesis ∷ r.1.now)) × IsNameText r.0.now) }
    ensures none { IfNone result ((w rest : List ℕ) → IsTrue (is_readable_name w) → bytes.now ≢ codes "named(" ++ (name_text w ++ byte.closing_parenthesis ∷ rest)) }
{
    let after = word(bytes, b"named(")?;
    let (text, behind) = name(after)?;
    let rest = mark(behind, b')')?;
    Some((text, rest))
}

/// The member that a ground clause comes from, and what follows the parenthesis behind it.
pub fn ground_member(bytes: &[u8]) -> Option<(usize, &[u8])>
    ensures some { IfSome result (λ r. bytes.now ≡ codes "ground(m" ++ (decimal r.0 ++ byte.closing_parenthesis ∷ r.1.now)) }
    ensures fits { IfSome result (λ r. r.0 < 2 ^ 64) }
    ensures none { IfNone result ((n : ℕ) (rest : List ℕ) → n < 2 ^ 64 → bytes.now ≢ codes "ground(m" ++ (decimal n ++ byte.closing_parenthesis ∷ rest)) }
{
    let after = word(bytes, b"ground(m")?;
    number_before(after, b')')
}

// The two members of a cover, and what follows the comma behind them.
fn members(bytes: &[u8]) -> Option<(usize, usize, &[u8])>
    ensures some { IfSome result (λ r. bytes.now ≡ members_text r.0 r.1 r.2.now) }
    ensures fits { IfSome result (λ r. (r.0 < 2 ^ 64) × (r.1 < 2 ^ 64)) }
    ensures none { IfNone result ((m n : ℕ) (rest : List ℕ) → m < 2 ^ 64 → n < 2 ^ 64 → bytes.now ≢ members_text m n rest) }
{
    let first = word(bytes, b"cover(m")?;
    let (left, behind) = number_before(first, b',')?;
    let second = mark(behind, b'm')?;
    let (right, rest) = number_before(second, b',')?;
    Some((left, right, rest))
}

// The word of a side, and what follows it.
fn side(bytes: &[u8]) -> Option<(Side, &[u8])>
    ensures some { IfSome result (λ r. bytes.now ≡ side_word (side_of r.0) ++ r.1.now) }
    ensures none { IfNone result ((s : format.Side) (rest : List ℕ) → bytes.now ≢ side_word s ++ rest) }
{
    if let Some(rest) = word(bytes, b"left") {
        return Some((Side::Left, rest));
    }
    let rest = word(bytes, b"right")?;
    Some((Side::Right, rest))
}

/// The two members of a cover and the side, and what follows the bracket behind them. Inlined, each byte that is compared would set
/// the fields of a note for the case that it differs.
#[inline(never)]
pub fn sides(bytes: &[u8]) -> Option<(usize, usize, Side, &[u8])>
    ensures some { IfSome result (λ r. bytes.now ≡ side_text r.0 r.1 (side_of r.2) r.3.now) }
    ensures fits { IfSome result (λ r. (r.0 < 2 ^ 64) × (r.1 < 2 ^ 64)) }
    ensures none { IfNone result ((m n : ℕ) (s : format.Side) (rest : List ℕ) → m < 2 ^ 64 → n < 2 ^ 64 → bytes.now ≢ side_text m n s rest) }
{
    let (left, right, after) = members(bytes)?;
    let (side, behind) = side(after)?;
    let rest = word(behind, b"),[")?;
    Some((left, right, side, rest))
}
