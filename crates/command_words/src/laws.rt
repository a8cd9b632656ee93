// What holds of what words ask.
ghost use Rattle.std.specs.Prelude.{◌≡◌, ℕ, List};
ghost use Rattle.cert_format.specs.Printable.{IsTextName};
ghost use Rattle.command_words.specs.Asked.{Asked, IsAsked, IsWithin, name_of};

/// Words ask at most one thing; the name of its answers can stand in a text, and its numbers are within their bounds: a budget has a
/// limit, a chain a least and a greatest length, and a model an element and not too many.
pub fn asked_once()
    ensures once { (words : List (List ℕ)) (a b : Asked) → IsAsked words a → IsAsked words b → a ≡ b }
    ensures named { (words : List (List ℕ)) (a : Asked) → IsAsked words a → IsTextName (name_of a) }
    ensures within { (words : List (List ℕ)) (a : Asked) → IsAsked words a → IsWithin a }
{}
