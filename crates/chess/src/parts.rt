ghost use Rattle.std.specs.Prelude.{◌≡◌, ◌≤◌, Decides};
ghost use Rattle.game.specs.Tree.{minimax};
ghost use Rattle.chess_rules.specs.Lawful.{Lawful};
ghost use Rattle.chess.specs.Limits.{plies_limit};
ghost use Rattle.chess.specs.Mates.{Mates};
ghost use Rattle.chess.specs.Positions.{tree_of};
ghost use Rattle.chess.specs.Problems.{diagram_of, attacker_of, plies_of};
ghost use Rattle.chess.specs.Standing.{IsPosition};
ghost use Rattle.chess.specs.Turn.{AttackersTurn};

use crate::{Chess, Problem};
use chess_attacks::Side;
use chess_moves::Diagram;
use game::Game;

impl Problem {
    /// The board, the side to move and the en passant square.
    pub fn diagram(&self) -> Diagram
        ensures at { result ≡ diagram_of self.now }
        ensures lawful { Lawful result }
    {
        self.position.diagram
    }

    /// The side that is to mate.
    pub fn attacker(&self) -> Side
        ensures { result ≡ attacker_of self.now }
    {
        self.attacker
    }

    /// The plies left: odd exactly when the attacker is to move.
    pub fn plies(&self) -> u8
        ensures left { result ≡ plies_of self.now }
        ensures few { result ≤ plies_limit }
        ensures turn { AttackersTurn result (diagram_of self.now).mover (attacker_of self.now) }
    {
        self.plies
    }
}

/// The current position of a game, which is what the Laws of Chess say of its diagram; minimax says whether the attacker mates from it.
pub fn current(game: &Chess) -> Problem
    ensures at { tree_of result ≡ ⟦<Chess as Game>⟧.current game.now }
    ensures position { IsPosition (attacker_of result) (plies_of result) (diagram_of result) (⟦<Chess as Game>⟧.current game.now) }
    ensures mates { Decides (minimax (⟦<Chess as Game>⟧.current game.now)) (Mates (attacker_of result) (plies_of result) (diagram_of result)) }
{
    game.current().problem
}
