// Bits of the words in which values are packed. Shifts and masks are here only: the rest sees bits by their numbers.
ghost use Rattle.std.specs.Prelude.{◌≡◌, ◌≢◌, ◌<◌, ◌==◌, ℕ, cond};
ghost use Rattle.std.specs.Int.{bit_at};
ghost use Rattle.std.specs.List.{slice_index_or};
ghost use Rattle.prop_logic.specs.Packed.{digit_of};

// The word at the place, 0 past the end.
pub(crate) fn word_at(words: &[u64], place: usize) -> u64
    ensures { result ≡ slice_index_or words.now place 0 }
{
    match words.get(place) {
        Some(word) => *word,
        None => 0,
    }
}

pub(crate) fn has_bit(word: u64, bit: usize) -> bool
    requires { bit < 64 }
    ensures { result ≡ (bit_at word bit == 1) }
{
    (word >> bit) & 1 == 1
}

fn set_bit(word: u64, bit: usize) -> u64
    requires { bit < 64 }
    ensures here { bit_at result bit ≡ 1 }
    ensures others { (i : ℕ) → i ≢ bit → bit_at result i ≡ bit_at word i }
{
    word | (1 << bit)
}

fn clear_bit(word: u64, bit: usize) -> u64
    requires { bit < 64 }
    ensures here { bit_at result bit ≡ 0 }
    ensures others { (i : ℕ) → i ≢ bit → bit_at result i ≡ bit_at word i }
{
    if has_bit(word, bit) {
        word ^ (1 << bit)
    } else {
        word
    }
}

pub(crate) fn with_bit(word: u64, bit: usize, value: bool) -> u64
    requires { bit < 64 }
    ensures here { bit_at result bit ≡ digit_of value }
    ensures others { (i : ℕ) → i ≢ bit → bit_at result i ≡ bit_at word i }
{
    if value {
        set_bit(word, bit)
    } else {
        clear_bit(word, bit)
    }
}
