ghost use Rattle.othello.specs.Following.{PlayFollows};
ghost use Rattle.othello.specs.Forcing.{MinimaxIsForcing};
ghost use Rattle.othello.specs.Fresh.{FreshIsItsText};
ghost use Rattle.othello.specs.Setting.{ReadingSets};
ghost use Rattle.othello.specs.Standing.{TreesArePositions};

use crate::Othello;
use game::Game;

/// The tree of a position has the state, the rank, the moves and the successors that the rules say.
pub fn trees_are_positions()
    ensures { TreesArePositions }
{}

/// Minimax over a position says exactly whether its attacker forces the margin.
pub fn minimax_is_forcing()
    ensures { MinimaxIsForcing }
{}

/// What `Game::play` leads to in a game of Othello: the position that the placement or pass of that number leaves, for the same attacker and
/// aim.
pub fn play_follows()
    ensures { PlayFollows }
{}

/// What `Game::set` makes of every text and aim: the position of the diagram that the text stands for, or the cause why there is none.
pub fn reading_sets()
    ensures { ReadingSets ⟦<Othello as Game>⟧.reading }
{}

/// The position of a fresh game is what its text says.
pub fn fresh_is_its_text()
    ensures { FreshIsItsText ⟦<Othello as Game>⟧.start ⟦<Othello as Game>⟧.reading }
{}
