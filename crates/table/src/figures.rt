ghost use Rattle.std.specs.Prelude.{◌≡◌, List, [], ◌∷◌, ◌++◌, length};
ghost use Rattle.table.specs.declared.pair.Pair.{Pair as Kept};
ghost use Rattle.table.specs.Frames.{Tallied, Figured};

use crate::{Pair, Side, TOP, capped_sum};

/// What a frame has from its successors' pairs, for the side to move.
#[derive(Clone, Copy)]
pub struct Figures {
    /// its own pair
    pub pair: Pair,
    /// the first place of the least number, counted from 0
    pub place: usize,
    /// the least number among the others, `TOP` where there are none
    pub second: u32,
    /// the capped sum of the others' numbers against the side
    pub rest: u32,
}

// The same of the pairs so far: the least number, the first place of it, the least number among the others, and the capped sums of the
// numbers against the side, of all and of all but that place.
#[derive(Clone, Copy)]
pub(crate) struct Tally {
    least: u32,
    place: usize,
    second: u32,
    sum: u32,
    rest: u32,
}

impl Tally {
    // One pair more, which comes after `place` others.
    fn with(self, place: usize, pair: Pair, side: Side) -> Tally
        ensures { (ps : List Kept) → length ps ≡ place → Tallied side ps self → Tallied side (ps ++ (pair ∷ [])) result }
    {
        let number = pair.own(side);
        let other = pair.against(side);
        let least = self.least.min(number);
        let sum = capped_sum(self.sum, other);
        if place == 0 || number < self.least {
            return Tally {
                least,
                place,
                second: self.least,
                sum,
                rest: self.sum,
            };
        }
        Tally {
            least,
            place: self.place,
            second: self.second.min(number),
            sum,
            rest: capped_sum(self.rest, other),
        }
    }
}

impl Figures {
    /// The figures of a frame's successors' pairs, in one pass.
    pub fn of(pairs: &[Pair], side: Side) -> Figures
        ensures { Figured side pairs.now result }
    {
        let mut tally = Tally {
            least: TOP,
            place: 0,
            second: TOP,
            sum: 0,
            rest: 0,
        };
        for (i, pair) in pairs.iter().enumerate() {
            tally = tally.with(i, *pair, side);
        }
        let (proof, disproof) = match side {
            Side::Attacker => (tally.least, tally.sum),
            Side::Defender => (tally.sum, tally.least),
        };
        Figures {
            pair: Pair { proof, disproof },
            place: tally.place,
            second: tally.second,
            rest: tally.rest,
        }
    }
}
