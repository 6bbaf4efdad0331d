ghost use Rattle.std.specs.Prelude.{◌≡◌, ◌<◌, ◌≤◌, length, map, Decides, MatchOption, slice_index};
ghost use Rattle.othello_rules.specs.Rules.{any};
ghost use Rattle.board.specs.Masks.{bit, size};
ghost use Rattle.othello_rules.specs.Diagrams.{discs, empties, placements, turn};
ghost use Rattle.othello_rules.specs.Legal.{CanPlace, Lists, HasTurn};
ghost use Rattle.othello_rules.specs.Lists.{listed, number_of};

use crate::{Diagram, Placements, Side, Turn};
use arrayvec::ArrayVec;
use board::Square;

// What a list promises in the words of squares. One type for squares and for the moves of chess would promise neither in its words, so these
// few lines stand in both crates.
impl Placements {
    /// The squares of a vector.
    pub(crate) fn new(squares: &ArrayVec<Square, 64>) -> Placements
        ensures { listed result ≡ map number_of squares.now.items }
    {
        let count = squares.len();
        let mut places = [Square::default(); 64];
        places[..count].copy_from_slice(squares.as_slice());
        Placements {
            squares: places,
            count,
        }
    }

    /// How many squares there are.
    pub fn count(&self) -> usize
        ensures { result ≡ length (listed self.now) }
    {
        self.count
    }

    /// The square of a number, counted from 0: none where there are not so many.
    pub fn get(&self, i: usize) -> Option<Square>
        ensures { MatchOption result (length (listed self.now) ≤ i)
            (λ s. (i < length (listed self.now)) × (s.number ≡ slice_index (listed self.now) i)) }
    {
        self.as_slice().get(i).copied()
    }

    /// The squares as a slice.
    pub fn as_slice(&self) -> &[Square]
        ensures { map number_of result.now ≡ listed self.now }
    {
        &self.squares[..self.count]
    }
}

impl Diagram {
    /// The squares where the mover may place a disc, in rising order.
    pub fn placements(&self) -> Placements
        ensures exact { listed result ≡ placements self.now }
        ensures meaning { Lists self.now (listed result) }
    {
        let mut squares = ArrayVec::new();
        for square in Square::all() {
            if self.legal(square) {
                squares.push(square);
            }
        }
        Placements::new(&squares)
    }

    /// Whether the mover may place a disc anywhere.
    pub fn can_place(&self) -> bool
        ensures exact { result ≡ any (placements self.now) }
        ensures meaning { Decides result (CanPlace self.now.mover self.now) }
    {
        Square::all().any(|square| self.legal(square))
    }

    /// Whether the mover may place a disc, has to pass, or the game has ended.
    pub fn turn(&self) -> Turn
        ensures exact { result ≡ turn self.now }
        ensures meaning { HasTurn self.now result }
    {
        if self.can_place() {
            Turn::Place
        } else if self.passed().can_place() {
            Turn::Pass
        } else {
            Turn::Ended
        }
    }

    /// How many discs a side has.
    pub fn disc_count(&self, side: Side) -> u32
        ensures { result ≡ size (bit (discs side self.now)) }
    {
        board::count(self.discs(side))
    }

    /// How many squares have no disc.
    pub fn empties(&self) -> u32
        ensures { result ≡ empties self.now }
    {
        board::count(!(self.x | self.o))
    }
}
