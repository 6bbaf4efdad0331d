use board::Square;
use chess_attacks::{Board, Side};

/// A diagram: the board, the side to move, and the square that a pawn has just passed, if one has.
#[derive(Clone, Copy)]
pub struct Diagram {
    pub board: Board,
    pub mover: Side,
    pub passing: Option<Square>,
}
