ghost use Rattle.std.specs.Prelude.{◌≡◌, ℕ, Decides};
ghost use Rattle.board.specs.Masks.{bit, mask};
ghost use Rattle.chess_attacks.specs.Men.{on};
ghost use Rattle.chess_attacks.specs.Ranges.{range_of};
ghost use Rattle.chess_attacks.specs.Commands.{Reached, Commands};
ghost use Rattle.chess_attacks.specs.Lists.{line, lines, leap, leaps, numbered, single, commands};

use crate::look::beside;
use crate::men::{Board, Kind, Man, Side};
use board::{Direction, Square};

// The ways of a knight's leap: one square straight on and one more aslant.
pub(crate) const KNIGHT_WAYS: [(Direction, Direction); 8] = [
    (Direction::North, Direction::NorthEast),
    (Direction::North, Direction::NorthWest),
    (Direction::East, Direction::NorthEast),
    (Direction::East, Direction::SouthEast),
    (Direction::South, Direction::SouthEast),
    (Direction::South, Direction::SouthWest),
    (Direction::West, Direction::SouthWest),
    (Direction::West, Direction::NorthWest),
];

impl Man {
    /// How far the man commands in a direction on an empty board: 0, 1 or 7 squares.
    pub fn range(self, direction: Direction) -> u8
        ensures { result ≡ range_of self direction }
    {
        match self.kind {
            Kind::King => 1,
            Kind::Queen => 7,
            Kind::Rook => match direction {
                Direction::North | Direction::East | Direction::South | Direction::West => 7,
                Direction::NorthEast
                | Direction::SouthEast
                | Direction::SouthWest
                | Direction::NorthWest => 0,
            },
            Kind::Bishop => match direction {
                Direction::North | Direction::East | Direction::South | Direction::West => 0,
                Direction::NorthEast
                | Direction::SouthEast
                | Direction::SouthWest
                | Direction::NorthWest => 7,
            },
            Kind::Knight => 0,
            Kind::Pawn => u8::from(match self.side {
                Side::White => matches!(direction, Direction::NorthEast | Direction::NorthWest),
                Side::Black => matches!(direction, Direction::SouthEast | Direction::SouthWest),
            }),
        }
    }
}

/// What stands on the square.
pub fn man_on(board: &Board, square: Square) -> Option<Man>
    ensures { result ≡ on board.now square.number }
{
    board[square.number() as usize]
}

/// The squares from `from` in a direction, at most `most` of them, up to and with the first that holds a man, as a
/// word.
pub fn line(board: &Board, from: Square, direction: Direction, most: u8) -> u64
    ensures exact { result ≡ mask (line board.now direction from.number most) }
    ensures meaning { (t : ℕ) → Decides (bit result t) (Reached board.now direction from.number most t) }
{
    let mut seen = 0;
    for next in from.ray(direction).take(most as usize) {
        seen |= next.single();
        if man_on(board, next).is_some() {
            return seen;
        }
    }
    seen
}

// The squares that the man commands along lines.
fn lines(board: &Board, man: Man, from: Square) -> u64
    ensures { result ≡ mask (lines board.now man from.number) }
{
    Direction::ALL
        .iter()
        .map(|direction| line(board, from, *direction, man.range(*direction)))
        .fold(0, |seen, more| seen | more)
}

// The square one straight on and one more aslant: none past the edge of the board.
pub(crate) fn leap(square: Square, straight: Direction, aslant: Direction) -> Option<Square>
    ensures { numbered result ≡ leap straight aslant square.number }
{
    beside(square, straight).and_then(|corner| beside(corner, aslant))
}

// The square of a leap as a word, which has no bit where there is none.
fn leap_word(from: Square, straight: Direction, aslant: Direction) -> u64
    ensures { result ≡ mask (single (leap straight aslant from.number)) }
{
    match leap(from, straight, aslant) {
        Some(square) => square.single(),
        None => 0,
    }
}

// The squares a knight's leap away.
fn leaps(from: Square) -> u64
    ensures { result ≡ mask (leaps from.number) }
{
    KNIGHT_WAYS
        .iter()
        .map(|(straight, aslant)| leap_word(from, *straight, *aslant))
        .fold(0, |seen, more| seen | more)
}

/// The squares that the man commands from `from`, as a word.
pub fn commanded(board: &Board, man: Man, from: Square) -> u64
    ensures exact { result ≡ mask (commands board.now man from.number) }
    ensures meaning { (t : ℕ) → Decides (bit result t) (Commands board.now man from.number t) }
{
    if man.kind == Kind::Knight {
        leaps(from)
    } else {
        lines(board, man, from)
    }
}
