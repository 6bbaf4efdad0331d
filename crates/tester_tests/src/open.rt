ghost use Rattle.std.specs.Prelude.{◌≡◌, true, refl};
ghost use Rattle.stones.specs.Piles.{tree, tree_of, IsPile};
ghost use Rattle.tester_tests.specs.Open.{reading};
ghost use Rattle.tester_tests.specs.OpenLaws.{rules};

use game::{Decline, OwnCause, Played, Position, SetDecline, State};
use stones::Pile;

/// The number of the cause for which a pile with no stone is not set up.
const NO_STONE: u8 = 42;

/// A pile of stones as a game of its own: it is played as stones are, but a pile with no stone is not set up, for a cause that no other game has.
#[derive(Clone, Copy, PartialEq, Eq, Debug, Default)]
pub struct OpenPile {
    pile: Pile,
}

/// The game that is played with it.
pub type OpenStones = Played<OpenPile>;

impl Position for OpenPile {
    ghost tree = { λ p. tree_of p.pile };

    ghost start = { tree 4 true };

    ghost positions = { IsPile };

    ghost depth = { 4 };

    ghost width = { 2 };

    ghost reading = { reading };

    ghost lawful = { rules };

    ghost within = { λ p. record { left = p.pile.left; attackers = p.pile.attackers; few = p.pile.few; is = refl } };

    fn fresh() -> Self {
        OpenPile {
            pile: Pile::fresh(),
        }
    }

    // As stones read it, and then a pile with no stone is refused.
    fn read(text: &[u8], aim: u32) -> Result<Self, SetDecline> {
        let pile = Pile::read(text, aim)?;
        if pile.count() == 0 {
            return Err(Decline::Own(OwnCause::new(NO_STONE).unwrap()).into());
        }
        Ok(OpenPile { pile })
    }

    fn state(&self) -> State {
        self.pile.state()
    }

    fn count(&self) -> usize {
        self.pile.count()
    }

    fn rank(&self) -> usize {
        self.pile.rank()
    }

    fn code(&self) -> [u64; 5] {
        self.pile.code()
    }

    fn text(&self, i: usize) -> Option<[u8; 5]> {
        self.pile.text(i)
    }

    fn after(&self, i: usize) -> Option<Self> {
        let pile = self.pile.after(i)?;
        Some(OpenPile { pile })
    }
}

#[cfg(test)]
mod tests {
    use super::OpenStones;
    use game::{Decline, OwnCause, SetDecline};
    use search_laws::{Answer, Verdict};
    use table::{Newest, Pair};
    use tester::{Call, Reply, Tester};

    fn refused(cause: Decline) -> Reply {
        Reply::NotSet(SetDecline { cause, place: 0 })
    }

    fn won(expansions: u32) -> Reply {
        Reply::Tried(Answer {
            verdict: Verdict::Won,
            expansions,
            entries: 0,
        })
    }

    // A text of no stone is refused with the number 42 where its aim is right, and path and table are as before. A text of one stone is set up,
    // which the trial has met, and play comes to a pile with no stone.
    #[test]
    fn a_cause_of_its_own(rt: HostRuntime) {
        let no_stone = Decline::Own(OwnCause::new(42).unwrap());
        assert_eq!(rt; no_stone.number(), 42);
        let cases = [
            (Call::Play(0), Reply::Done),
            (Call::Trial(8), won(3)),
            (Call::Set { text: b"0", aim: 0 }, refused(no_stone)),
            (Call::Set { text: b"0", aim: 1 }, refused(Decline::Aim)),
            (Call::Set { text: b"5", aim: 0 }, refused(Decline::Form)),
            (Call::Trial(0), won(0)),
            (Call::TakeBack, Reply::Done),
            (Call::TakeBack, Reply::Declined(Decline::TakeBack)),
            (Call::Set { text: b"1", aim: 0 }, Reply::Done),
            (Call::Trial(0), won(0)),
            (Call::Play(0), Reply::Done),
            (Call::Trial(0), won(0)),
        ];
        let mut records = [Pair::FRESH; 6144];
        let mut replies = [Reply::Done; 12];
        let mut tester = Tester::<OpenStones, Newest>::new(Newest::new());
        tester.perform(
            &cases.map(|(call, _)| call),
            &mut records,
            &mut [],
            &mut replies,
        );
        assert_eq!(rt; replies, cases.map(|(_, reply)| reply));
    }
}
