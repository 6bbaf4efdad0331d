ghost use Rattle.std.specs.Prelude.{◌≡◌, Some, [], ◌∷◌};
ghost use Rattle.othello_rules.specs.Texts.{letter};

use crate::Side;
use std::fmt;

impl Side {
    /// The letter of the side's discs: X or O.
    pub fn letter(self) -> char
        ensures { result ≡ letter self }
    {
        match self {
            Side::X => 'X',
            Side::O => 'O',
        }
    }
}

/// Writes the letter of the side's discs.
impl fmt::Display for Side {
    ghost output = { λ s. Some (letter s ∷ []) };

    fn fmt<W: fmt::Write>(&self, f: &mut fmt::Formatter<W>) -> fmt::Result {
        f.write_char(self.letter())
    }
}
