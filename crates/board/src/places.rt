ghost use Rattle.std.specs.Prelude.{◌≡◌, ◌<◌, ◌≤◌, Some, MatchOption};
ghost use Rattle.board.specs.Squares.{file, row, square_at, reach, away, name_of};

use crate::{Direction, Square};
use std::fmt;

impl Square {
    /// The square of a number: none from 64 on.
    pub fn new(number: u8) -> Option<Square>
        ensures { MatchOption result (64 ≤ number) (λ s. s.number ≡ number) }
    {
        if number < 64 {
            Some(Square { number })
        } else {
            None
        }
    }

    /// The square at a file and a row, both counted from 0: none outside the board.
    pub fn at(file: u8, row: u8) -> Option<Square>
        ensures { MatchOption result ((file < 8 → 8 ≤ row)) (λ s. (file < 8) × (row < 8) × (s.number ≡ square_at file row)) }
    {
        if file < 8 && row < 8 {
            Some(Square {
                number: file + 8 * row,
            })
        } else {
            None
        }
    }

    /// The number of the square, below 64.
    pub fn number(self) -> u8
        ensures { result ≡ self.number }
    {
        self.number
    }

    /// The file: 0 for a, to 7 for h.
    pub fn file(self) -> u8
        ensures { result ≡ file self.number }
    {
        self.number % 8
    }

    /// The row: 0 for row 1, to 7 for row 8.
    pub fn row(self) -> u8
        ensures { result ≡ row self.number }
    {
        self.number / 8
    }

    /// The name of the square: the letter of its file, the digit of its row.
    pub fn name(self) -> [u8; 2]
        ensures { result ≡ name_of self.number }
    {
        [b'a' + self.file(), b'1' + self.row()]
    }

    /// The square at a distance in a direction: none past the edge of the board.
    pub fn beyond(self, direction: Direction, distance: u8) -> Option<Square>
        ensures { MatchOption result (reach direction self.number < distance)
            (λ s. (distance ≤ reach direction self.number) × (s.number ≡ away direction self.number distance)) }
    {
        if distance > self.steps(direction) {
            return None;
        }
        let number = self
            .number
            .wrapping_add(distance.wrapping_mul(direction.step()));
        Some(Square { number })
    }
}

/// Writes the name.
impl fmt::Display for Square {
    ghost output = { λ s. Some (name_of s.number) };

    fn fmt<W: fmt::Write>(&self, f: &mut fmt::Formatter<W>) -> fmt::Result {
        let [file, row] = self.name().map(char::from);
        write!(f, "{file}{row}")
    }
}
