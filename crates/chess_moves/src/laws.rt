ghost use Rattle.chess_moves.specs.Leaves.{MovesLeave, LeftOnce, LegalIsSafe};

/// What is played leaves, square by square, what a move leaves, and no other diagram does. A move is legal exactly when a man may go so
/// and the diagram that it leaves has no check of the side that moved.
pub fn moves_leave()
    ensures left { MovesLeave }
    ensures once { LeftOnce }
    ensures safe { LegalIsSafe }
{}
