ghost use Rattle.std.specs.Prelude.{◌≡◌, Decides};
ghost use Rattle.game.specs.Tree.{minimax};
ghost use Rattle.othello.specs.Forcing.{Forces};
ghost use Rattle.othello.specs.Positions.{tree_of, diagram_of, attacker_of, aim_of};
ghost use Rattle.othello.specs.Standing.{IsPosition};

use crate::{Othello, Position};
use game::Game;
use othello_rules::{Diagram, Side};

impl Position {
    /// The discs and the side to move.
    pub fn diagram(&self) -> Diagram
        ensures { result ≡ diagram_of self.now }
    {
        self.diagram
    }

    /// The side that aims at the margin.
    pub fn attacker(&self) -> Side
        ensures { result ≡ attacker_of self.now }
    {
        self.attacker
    }

    /// The margin that the attacker aims at, 0 to 64 discs.
    pub fn aim(&self) -> u8
        ensures { result ≡ aim_of self.now }
    {
        self.aim
    }
}

/// The current position of a game, which is what the rules say of its diagram; minimax says whether the attacker forces its margin from it.
pub fn current(game: &Othello) -> Position
    ensures at { tree_of result ≡ ⟦<Othello as Game>⟧.current game.now }
    ensures position { IsPosition (attacker_of result) (aim_of result) (diagram_of result) (⟦<Othello as Game>⟧.current game.now) }
    ensures forces { Decides (minimax (⟦<Othello as Game>⟧.current game.now)) (Forces (attacker_of result) (aim_of result) (diagram_of result)) }
{
    *game.current()
}
