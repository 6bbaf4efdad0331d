ghost use Rattle.std.specs.Prelude.{◌≤◌};
ghost use Rattle.chess.specs.Limits.{plies_limit};
ghost use Rattle.chess.specs.Turn.{AttackersTurn};

use chess_attacks::Side;
use chess_rules::Position;

/// A chess position, the side that is to mate, and the plies left: at most 13, and odd exactly when that side is to move.
#[derive(Clone, Copy)]
pub struct Problem {
    pub(crate) position: Position,
    pub(crate) attacker: Side,
    pub(crate) plies: u8,
    ghost short: { plies ≤ plies_limit },
    ghost turn: { AttackersTurn plies position.diagram.mover attacker },
}
