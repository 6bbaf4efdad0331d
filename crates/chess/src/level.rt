ghost use Rattle.std.specs.Prelude.{◌≡◌, true};
ghost use Rattle.chess_moves.specs.Moves.{legal_moves};
ghost use Rattle.chess.specs.Kept.{keeps};

use crate::problem::Problem;
use chess_moves::MoveList;

/// A position of a path, and its legal moves once they are listed.
#[derive(Drop)]
pub struct Level {
    pub(crate) problem: Problem,
    pub(crate) list: Option<MoveList>,
    ghost right: { keeps list (legal_moves problem.position.diagram) ≡ true },
}
