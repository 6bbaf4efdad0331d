ghost use Rattle.std.specs.Prelude.{◌≡◌, ℕ, ◌+◌, ◌^◌, ◌<◌};
ghost use Rattle.board.specs.Masks.{bit, mask};
ghost use Rattle.board.specs.Squares.{reach, away, ray};
ghost use Rattle.othello_rules.specs.Rules.{turned, flipped};
ghost use Rattle.othello_rules.specs.Turning.{Turning, Placing};

use crate::roles::Roles;
use board::{Direction, Square};

// The cell one step further in the direction: a word that has one bit, and still has one. By shifts, as the project's rules want it.
fn shifted(cell: u64, direction: Direction) -> u64
    ensures { (s k : ℕ) → s < 64 → k < reach direction s → cell ≡ 2 ^ away direction s k → result ≡ 2 ^ away direction s (k + 1) }
{
    match direction {
        Direction::East => cell << 1,
        Direction::West => cell >> 1,
        Direction::North => cell << 8,
        Direction::South => cell >> 8,
        Direction::NorthEast => cell << 9,
        Direction::NorthWest => cell << 7,
        Direction::SouthEast => cell >> 7,
        Direction::SouthWest => cell >> 9,
    }
}

impl Roles {
    // The discs that a disc on the square turns in one direction.
    fn flips_in(self, square: Square, direction: Direction) -> u64
        ensures { result ≡ mask (turned (bit self.own) (bit self.other) (ray direction square.number)) }
    {
        let Roles { own, other } = self;
        let mut cell = square.single();
        let mut taken = 0;
        // the steps are counted: the cell itself is shifted, as the project's rules want discs to be found
        for gone in 0..square.steps(direction) {
            cell = shifted(cell, direction);
            if other & cell != 0 {
                taken |= cell;
            } else if own & cell != 0 {
                return taken;
            } else {
                return 0;
            }
        }
        0
    }

    // The discs that a disc on the square turns in the eight directions.
    pub(crate) fn flips(self, square: Square) -> u64
        ensures { result ≡ mask (flipped (bit self.own) (bit self.other) square.number) }
    {
        let mut turned = 0;
        for direction in &Direction::ALL {
            turned |= self.flips_in(square, *direction);
        }
        turned
    }
}

/// What a disc turns is what the rules say, by direction and distance.
pub fn turning_holds()
    ensures { Turning }
{}

/// So is what a whole placement turns, and when it is legal.
pub fn placing_holds()
    ensures { Placing }
{}
