ghost use Rattle.std.specs.Prelude.{◌≡◌, ◌-◌, ◌≤◌};
ghost use Rattle.std.specs.Iterator.{at_most};
ghost use Rattle.board.specs.Iterators.{Counts};

use crate::Square;

/// The squares of the board from a number on, in the order of their numbers.
#[derive(Debug, Drop)]
pub struct Squares {
    pub(crate) next: u8,
    ghost on_board: { next ≤ 64 },
}

impl Iterator for Squares {
    type Item = Square;

    ghost next_gives = { λ s r t. Counts s.next r t.next };

    ghost remaining = { λ s. at_most (64 - s.next) };

    fn next(&mut self) -> Option<Square> {
        let square = Square::new(self.next)?;
        self.next += 1;
        Some(square)
    }
}

impl Square {
    /// All squares in the order of their numbers, from a1 to h8.
    ///
    /// In an invariant of `for square in Square::all()`, `l.square-iterator.next` is the number of the square of
    /// this iteration, and how many were before it.
    pub fn all() -> Squares
        ensures { result.next ≡ 0 }
    {
        Squares { next: 0 }
    }
}
