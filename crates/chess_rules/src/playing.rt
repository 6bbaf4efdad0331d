ghost use Rattle.std.specs.Prelude.{◌≡◌, ◌≤◌, length, MatchOption};
ghost use Rattle.chess_moves.specs.Legal.{Lists};
ghost use Rattle.chess_moves.specs.Moves.{legal_moves, listed};
ghost use Rattle.chess_rules.specs.Lawful.{Lawful};
ghost use Rattle.chess_rules.specs.Keeping.{MovesKeep};
ghost use Rattle.chess_rules.specs.Positions.{diagram_of, next_of, LegalMoveLeaves};

use crate::position::Position;
use crate::rules::is_lawful;
use chess_moves::{Diagram, MoveList};

impl Position {
    /// The position of a diagram, if it keeps the rules.
    pub fn new(diagram: Diagram) -> Option<Position>
        ensures { MatchOption result (Lawful diagram → ⊥) (λ p. Lawful diagram × (p.diagram ≡ diagram)) }
    {
        if is_lawful(&diagram) {
            Some(Position { diagram })
        } else {
            None
        }
    }

    /// The legal moves, by from-square, then to-square, then queen, rook, bishop and knight.
    pub fn moves(&self) -> MoveList
        ensures exact { listed result ≡ legal_moves self.now.diagram }
        ensures legal { Lists self.now.diagram (listed result) }
    {
        chess_moves::moves(&self.diagram)
    }

    /// The position after the legal move of a number, counted from 0: none where there is no such move.
    pub fn after(&self, number: usize) -> Option<Position>
        ensures exact { diagram_of result ≡ next_of self.now.diagram number }
        ensures leaves { MatchOption result (length (legal_moves self.now.diagram) ≤ number) (λ p. LegalMoveLeaves self.now.diagram number p.diagram) }
    {
        let step = self.moves().get(number)?;
        Some(Position {
            diagram: chess_moves::play(&self.diagram, step),
        })
    }
}

/// A legal move keeps the rules of a position.
pub fn legal_moves_keep()
    ensures { MovesKeep }
{}
