ghost use Rattle.std.specs.Prelude.{◌≡◌, [], ◌∷◌, Some, Decides};
ghost use Rattle.chess_attacks.specs.Men.{other, of, man_of};
ghost use Rattle.chess_attacks.specs.Letters.{name, letter};

use std::fmt;

/// The sides of a game, and whose man a man is.
#[derive(Clone, Copy, PartialEq, Eq, Debug)]
pub enum Side {
    White,
    Black,
}

/// The kinds of men.
#[derive(Clone, Copy, PartialEq, Eq, Debug)]
pub enum Kind {
    King,
    Queen,
    Rook,
    Bishop,
    Knight,
    Pawn,
}

/// A man.
#[derive(Clone, Copy, PartialEq, Eq, Debug)]
pub struct Man {
    pub side: Side,
    pub kind: Kind,
}

/// The squares of a board in the order of their numbers, each with a man or empty.
pub type Board = [Option<Man>; 64];

impl Side {
    /// The other side.
    pub fn other(self) -> Side
        ensures { result ≡ other self }
    {
        match self {
            Side::White => Side::Black,
            Side::Black => Side::White,
        }
    }
}

/// Writes `White` or `Black`.
impl fmt::Display for Side {
    ghost output = { λ a. Some (name a) };

    fn fmt<W: fmt::Write>(&self, f: &mut fmt::Formatter<W>) -> fmt::Result {
        match self {
            Side::White => f.write_str("White"),
            Side::Black => f.write_str("Black"),
        }
    }
}

impl Man {
    /// The letter of the man, of K, Q, R, B, N and P: a capital for White, a small one for Black.
    pub fn letter(self) -> char
        ensures { result ≡ letter self.side self.kind }
    {
        let capital = match self.kind {
            Kind::King => 'K',
            Kind::Queen => 'Q',
            Kind::Rook => 'R',
            Kind::Bishop => 'B',
            Kind::Knight => 'N',
            Kind::Pawn => 'P',
        };
        match self.side {
            Side::White => capital,
            Side::Black => capital.to_ascii_lowercase(),
        }
    }
}

/// Writes the letter.
impl fmt::Display for Man {
    ghost output = { λ m. Some (letter m.side m.kind ∷ []) };

    fn fmt<W: fmt::Write>(&self, f: &mut fmt::Formatter<W>) -> fmt::Result {
        f.write_char(self.letter())
    }
}

/// Whether a man of the side stands there.
pub fn holds(man: Option<Man>, side: Side) -> bool
    ensures { result ≡ of side man }
{
    man.is_some_and(|man| man.side == side)
}

/// Whether a man of the side and kind stands there.
pub fn holds_man(man: Option<Man>, side: Side, kind: Kind) -> bool
    ensures exact { result ≡ man_of side kind man }
    ensures meaning { Decides result (man ≡ Some (record { side = side; kind = kind })) }
{
    man == Some(Man { side, kind })
}
