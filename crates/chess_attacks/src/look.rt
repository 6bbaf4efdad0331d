ghost use Rattle.std.specs.Prelude.{◌≡◌};
ghost use Rattle.chess_attacks.specs.Lists.{beside, numbered};
ghost use Rattle.chess_attacks.specs.Look.{struck, leapt, line_attack, leap_attack};

use crate::commands::{KNIGHT_WAYS, leap, man_on};
use crate::men::{Board, Kind, Side, holds_man};
use board::{Direction, Square};

/// The square beside a square: none past the edge of the board.
pub fn beside(square: Square, direction: Direction) -> Option<Square>
    ensures { numbered result ≡ beside direction square.number }
{
    square.beyond(direction, 1)
}

// Board, square and side are plain parameters here and in `attack`: a struct of the three would be made anew for each square and be no
// plainer.

// Whether the first man met from the square in a direction is of the side and commands the square.
fn strikes(board: &Board, square: Square, direction: Direction, by: Side) -> bool
    ensures { result ≡ struck board.now direction by square.number 0 7 }
{
    for (walked, next) in square.ray(direction).enumerate() {
        if let Some(man) = man_on(board, next) {
            return man.side == by && walked < man.range(direction.opposite()) as usize;
        }
    }
    false
}

// Whether a knight of the side stands one square straight on and one more aslant.
#[tactic(auto, unfolding(crate::specs::Look::leapt))]
fn leaps_from(
    board: &Board,
    square: Square,
    straight: Direction,
    aslant: Direction,
    by: Side,
) -> bool
    ensures { result ≡ leapt board.now by square.number straight aslant }
{
    leap(square, straight, aslant).is_some_and(|from| holds_man(
        man_on(board, from),
        by,
        Kind::Knight,
    ))
}

pub(crate) fn line_attack(board: &Board, square: Square, by: Side) -> bool
    ensures { result ≡ line_attack board.now square.number by }
{
    Direction::ALL
        .iter()
        .any(|direction| strikes(board, square, *direction, by))
}

pub(crate) fn leap_attack(board: &Board, square: Square, by: Side) -> bool
    ensures { result ≡ leap_attack board.now square.number by }
{
    KNIGHT_WAYS.iter().any(|(straight, aslant)| leaps_from(board, square, *straight, *aslant, by))
}
