// How an item's line begins: the letter of its group, its number, and its role.
ghost use Rattle.std.specs.Prelude.{◌≡◌, ◌≢◌, ◌++◌, ◌<◌, ◌^◌, ◌∷◌, ℕ, List, IfSome, IfNone, decimal};
ghost use Rattle.cert_items.specs.declared.group.Group.{Group};
ghost use Rattle.cert_items.specs.Items.{head_text, letter_of, role_of};
ghost use Rattle.inst_logic.specs.Codes as byte;

use crate::mark::word;
use crate::number::number_before;

/// The groups of items, in their order in a text: an item of `Shown` says what shows an input or axiom, and one of `Cover` what
/// covers an instance.
#[derive(Clone, Copy, Debug, PartialEq, Eq)]
pub enum Group {
    Input,
    Axiom,
    Member,
    Ground,
    Step,
    Shown,
    Cover,
}

// The group of the letter at the front, and what follows it.
fn letter(bytes: &[u8]) -> Option<(Group, &[u8])>
    ensures some { IfSome result (λ r. bytes.now ≡ letter_of r.0 ∷ r.1.now) }
    ensures none { IfNone result ((g : Group) (rest : List ℕ) → bytes.now ≢ letter_of g ∷ rest) }
{
    let [first, rest @ ..] = bytes else {
        return None;
    };
    match *first {
        b'i' => Some((Group::Input, rest)),
        b'e' => Some((Group::Axiom, rest)),
        b'm' => Some((Group::Member, rest)),
        b'g' => Some((Group::Ground, rest)),
        b'r' => Some((Group::Step, rest)),
        b'q' => Some((Group::Shown, rest)),
        b'c' => Some((Group::Cover, rest)),
        _ => None,
    }
}

// What follows the role of the group and its comma.
fn role(group: Group, bytes: &[u8]) -> Option<&[u8]>
    ensures some { IfSome result (λ rest. bytes.now ≡ role_of group rest.now) }
    ensures none { IfNone result ((rest : List ℕ) → bytes.now ≢ role_of group rest) }
{
    match group {
        Group::Input | Group::Axiom => word(bytes, b"axiom,"),
        Group::Member | Group::Ground | Group::Step | Group::Shown | Group::Cover => {
            word(bytes, b"plain,")
        }
    }
}

// The group and the number behind `cnf(`, and what follows the comma.
fn group_and_number(bytes: &[u8]) -> Option<(Group, usize, &[u8])>
    ensures some { IfSome result (λ r. (bytes.now ≡ letter_of r.0 ∷ (decimal r.1 ++ byte.comma ∷ r.2.now)) × (r.1 < 2 ^ 64)) }
    ensures none { IfNone result ((g : Group) (n : ℕ) (rest : List ℕ) → n < 2 ^ 64 → bytes.now ≢ letter_of g ∷ (decimal n ++ byte.comma ∷ rest)) }
{
    let (group, digits) = letter(bytes)?;
    let (n, rest) = number_before(digits, b',')?;
    Some((group, n, rest))
}

/// The group and the number of the item at the front, and what follows the comma behind its role.
pub fn head(bytes: &[u8]) -> Option<(Group, usize, &[u8])>
    ensures some { IfSome result (λ r. (bytes.now ≡ head_text r.0 r.1 r.2.now) × (r.1 < 2 ^ 64)) }
    ensures none { IfNone result ((g : Group) (n : ℕ) (rest : List ℕ) → n < 2 ^ 64 → bytes.now ≢ head_text g n rest) }
{
    let after = word(bytes, b"cnf(")?;
    let (group, n, behind) = group_and_number(after)?;
    let rest = role(group, behind)?;
    Some((group, n, rest))
}
