ghost use Rattle.std.specs.Prelude.{◌≡◌, true, refl};
ghost use Rattle.stones.specs.Piles.{tree, tree_of, IsPile, reading};
ghost use Rattle.stones.specs.Laws.{rules};

use crate::Pile;
use game::{Decline, Position, SetDecline, State};

/// A fresh game's pile.
impl Default for Pile {
    ghost is_default = { λ p. tree_of p ≡ tree 4 true };

    fn default() -> Self {
        Pile::fresh()
    }
}

impl Position for Pile {
    ghost tree = { tree_of };

    ghost start = { tree 4 true };

    ghost positions = { IsPile };

    ghost depth = { 4 };

    ghost width = { 2 };

    ghost reading = { reading };

    ghost lawful = { rules };

    ghost within = { λ p. record { left = p.left; attackers = p.attackers; few = p.few; is = refl } };

    // Four stones, and the attacker is to move.
    fn fresh() -> Self {
        Pile {
            left: 4,
            attackers: true,
        }
    }

    // One digit from 0 to 4, under the aim 0; the side to move attacks.
    fn read(text: &[u8], aim: u32) -> Result<Self, SetDecline> {
        if aim != 0 {
            return Err(Decline::Aim.into());
        }
        match text {
            [digit @ b'0'..=b'4'] => Ok(Pile {
                left: *digit - b'0',
                attackers: true,
            }),
            [b'0'..=b'4', ..] => Err(SetDecline::at(1)),
            _ => Err(SetDecline::at(0)),
        }
    }

    // With no stone left, the side that took the last has won.
    fn state(&self) -> State {
        match (self.left == 0, self.attackers) {
            (true, true) => State::NotWon,
            (true, false) => State::Won,
            (false, true) => State::Attacker,
            (false, false) => State::Defender,
        }
    }

    // One or two stones can be taken, as far as there are so many.
    fn count(&self) -> usize {
        self.left.min(2) as usize
    }

    fn rank(&self) -> usize {
        self.left as usize
    }

    fn code(&self) -> [u64; 5] {
        // the side as a number, for the reason at `Pile`
        [self.left as u64, self.attackers as u64, 0, 0, 0]
    }

    fn text(&self, i: usize) -> Option<[u8; 5]> {
        if i >= self.count() {
            return None;
        }
        Some(if i == 0 { *b"take1" } else { *b"take2" })
    }

    fn after(&self, i: usize) -> Option<Self> {
        if i >= self.count() {
            return None;
        }
        Some(Pile {
            left: self.left - 1 - i as u8,
            attackers: !self.attackers,
        })
    }
}

#[cfg(test)]
mod tests {
    use crate::Stones;
    use game::{Decline, Game, State};

    #[test]
    fn three_moves_and_back(rt: HostRuntime) {
        let mut game = Stones::fresh();
        assert_eq!(rt; game.play(0), Ok(()));
        assert_eq!(rt; game.play(1), Ok(()));
        assert_eq!(rt; game.play(1), Err(Decline::MoveNumber));
        assert_eq!(rt; game.play(0), Ok(()));
        assert_eq!(rt; game.state(), State::Won);
        assert_eq!(rt; game.take_back(), Ok(()));
        assert_eq!(rt; game.rank(), 1);
        assert_eq!(rt; game.take_back(), Ok(()));
        assert_eq!(rt; game.take_back(), Ok(()));
        assert_eq!(rt; game.take_back(), Err(Decline::TakeBack));
    }
}
