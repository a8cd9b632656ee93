// The stream of tokens of a text.
ghost use Rattle.std.specs.Prelude.{◌≡◌};

use crate::stream::Tokens;

/// The tokens of the text, from its start.
pub fn tokens<'a>(text: &'a [u8]) -> Tokens<'a>
    ensures { result ≡ record { text = text.now; at = 0 } }
{
    Tokens { text, at: 0 }
}
