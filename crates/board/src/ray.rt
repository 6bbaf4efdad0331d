ghost use Rattle.std.specs.Prelude.{◌≡◌, ◌-◌, ◌≤◌};
ghost use Rattle.std.specs.Iterator.{at_most};
ghost use Rattle.board.specs.Squares.{reach};
ghost use Rattle.board.specs.Iterators.{Walks};

use crate::{Direction, Square};

/// The squares from a square towards the edge of the board, the nearest first.
#[derive(Debug, Drop)]
pub struct Ray {
    pub(crate) from: Square,
    pub(crate) direction: Direction,
    pub(crate) walked: u8,
    ghost on_board: { walked ≤ reach direction from.number },
}

impl Iterator for Ray {
    type Item = Square;

    ghost next_gives = { λ s r t. (t.from ≡ s.from) × (t.direction ≡ s.direction)
        × Walks s.direction s.from.number s.walked r t.walked };

    ghost remaining = { λ s. at_most (reach s.direction s.from.number - s.walked) };

    fn next(&mut self) -> Option<Square> {
        let square = self.from.beyond(self.direction, self.walked + 1)?;
        self.walked += 1;
        Some(square)
    }
}

impl Square {
    /// The squares in a direction, from the next one to the edge of the board: none where the square itself lies
    /// on that edge.
    ///
    /// In an invariant of `for next in from.ray(direction)`, `l.next-iterator.walked` is how many squares were
    /// before this one.
    pub fn ray(self, direction: Direction) -> Ray
        ensures from { result.from ≡ self }
        ensures direction { result.direction ≡ direction }
        ensures walked { result.walked ≡ 0 }
    {
        Ray {
            from: self,
            direction,
            walked: 0,
        }
    }
}
