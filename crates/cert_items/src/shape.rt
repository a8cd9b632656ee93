// Which lines the text of a certificate may have.
ghost use Rattle.std.specs.Prelude.{◌≡◌, ◌&&◌, not, nat_eq};

/// What decides which lines may stand in a text: whether it is that of a refutation, else it is that of a saturation, and the
/// number of its format.
#[derive(Clone, Copy, Debug, PartialEq, Eq)]
pub struct TextShape {
    pub refutation: bool,
    pub format: u64,
}

impl TextShape {
    /// Whether its texts say what shows each input and axiom, and what covers each instance.
    pub fn names_covers(self) -> bool
        ensures { result ≡ (not self.refutation && nat_eq self.format 3) }
    {
        !self.refutation && self.format == 3
    }
}
