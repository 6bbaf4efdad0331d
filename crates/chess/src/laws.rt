ghost use Rattle.chess.specs.Fresh.{FreshIsItsText};
ghost use Rattle.chess.specs.Mates.{MinimaxIsMate};
ghost use Rattle.chess.specs.Problems.{PlayFollows};
ghost use Rattle.chess.specs.Setting.{ReadingMeans};
ghost use Rattle.chess.specs.Standing.{TreesArePositions};

use crate::Chess;
use game::Game;

/// Minimax over the tree of a position says exactly whether its attacker mates within the plies left.
pub fn minimax_is_mate()
    ensures { MinimaxIsMate }
{}

/// The tree of a position has the state, the moves and the successors that the Laws of Chess say.
pub fn trees_are_positions()
    ensures { TreesArePositions }
{}

/// What `Game::play` leads to in a game of chess: the position that a legal move with the text of that number leaves, with one ply fewer.
pub fn play_follows()
    ensures { PlayFollows }
{}

/// What `Game::set` makes of every text and aim: the problem of the diagram that the text stands for, or the first cause why there is none.
pub fn reading_means()
    ensures { ReadingMeans ⟦<Chess as Game>⟧.reading }
{}

/// The position of a fresh game is what its text says.
pub fn fresh_is_its_text()
    ensures { FreshIsItsText ⟦<Chess as Game>⟧.start ⟦<Chess as Game>⟧.reading }
{}
