ghost use Rattle.std.specs.Prelude.{◌≡◌};
ghost use Rattle.chess_attacks.specs.Lists.{numbered};
ghost use Rattle.chess_moves.specs.Pawns.{forward, start_row, last_row, kind_of, becoming, at_end, stride, is_passing, en_passant, two_rows, passes};

use crate::step::{Move, Promotion};
use board::{Direction, Square};
use chess_attacks::{Kind, Man, Side, beside};

/// The direction in which a side's pawns step.
pub fn forward(side: Side) -> Direction
    ensures { result ≡ forward side }
{
    match side {
        Side::White => Direction::North,
        Side::Black => Direction::South,
    }
}

fn start_row(side: Side) -> u8
    ensures { result ≡ start_row side }
{
    match side {
        Side::White => 1,
        Side::Black => 6,
    }
}

fn last_row(side: Side) -> u8
    ensures { result ≡ last_row side }
{
    match side {
        Side::White => 7,
        Side::Black => 0,
    }
}

impl Promotion {
    /// The kind of the man that a pawn becomes.
    pub fn kind(self) -> Kind
        ensures { result ≡ kind_of self }
    {
        match self {
            Promotion::Queen => Kind::Queen,
            Promotion::Rook => Kind::Rook,
            Promotion::Bishop => Kind::Bishop,
            Promotion::Knight => Kind::Knight,
        }
    }
}

// What the man is after its move.
pub(crate) fn becoming(man: Man, promotion: Option<Promotion>) -> Man
    ensures { result ≡ becoming man promotion }
{
    promotion.map_or(
        man,
        |promotion| Man {
            kind: promotion.kind(),
            ..man
        },
    )
}

// Whether the man is a pawn that becomes another man on the square.
pub(crate) fn promotes(man: Man, to: Square) -> bool
    ensures { result ≡ at_end man to.number }
{
    man.kind == Kind::Pawn && to.row() == last_row(man.side)
}

// How many squares ahead a pawn may step.
pub(crate) fn stride(side: Side, from: Square) -> u8
    ensures { result ≡ stride side from.number }
{
    if from.row() == start_row(side) { 2 } else { 1 }
}

// Whether a pawn has just passed the square.
pub(crate) fn is_passing(passing: Option<Square>, to: Square) -> bool
    ensures { result ≡ is_passing (numbered passing) to.number }
{
    passing == Some(to)
}

// Whether the man is a pawn that goes aslant to the square which another has just passed.
pub(crate) fn takes_passing(passing: Option<Square>, man: Man, step: Move) -> bool
    ensures { result ≡ en_passant (numbered passing) man step.from.number step.to.number }
{
    man.kind == Kind::Pawn && step.from.file() != step.to.file() && is_passing(passing, step.to)
}

fn is_double(step: Move) -> bool
    ensures { result ≡ two_rows step.from.number step.to.number }
{
    step.from.row().abs_diff(step.to.row()) == 2
}

// The square that a pawn passes when it goes two rows.
pub(crate) fn passes(man: Man, step: Move) -> Option<Square>
    ensures { result ≡ passes man step.from.number step.to.number }
{
    if man.kind == Kind::Pawn && is_double(step) {
        beside(step.from, forward(man.side))
    } else {
        None
    }
}
