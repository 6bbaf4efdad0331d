ghost use Rattle.std.specs.Prelude.{◌≡◌, ◌==◌, length};
ghost use Rattle.std.specs.List.{slice_get};
ghost use Rattle.chess_moves.specs.Moves.{listed};

use crate::list::{MOST, MoveList};
use crate::step::Move;
use arrayvec::ArrayVec;

// What a list promises in the words of moves. One type for moves and for Othello's squares would promise neither in its words, so these few
// lines stand in both crates.
impl MoveList {
    /// The moves of a vector.
    pub(crate) fn new(moves: &ArrayVec<Move, MOST>) -> MoveList
        ensures { listed result ≡ moves.now.items }
    {
        let count = moves.len();
        let mut places = [Move::default(); MOST];
        places[..count].copy_from_slice(moves.as_slice());
        MoveList {
            moves: places,
            count,
        }
    }

    /// How many moves there are.
    pub fn len(&self) -> usize
        ensures { result ≡ length (listed self.now) }
    {
        self.count
    }

    /// Whether there is no move.
    pub fn is_empty(&self) -> bool
        ensures { result ≡ (length (listed self.now) == 0) }
    {
        self.len() == 0
    }

    /// The move of a number, counted from 0: none from the length on.
    pub fn get(&self, i: usize) -> Option<Move>
        ensures { result ≡ slice_get (listed self.now) i }
    {
        self.as_slice().get(i).copied()
    }

    /// The moves, in order.
    pub fn as_slice(&self) -> &[Move]
        ensures { result.now ≡ listed self.now }
    {
        &self.moves[..self.count]
    }
}
