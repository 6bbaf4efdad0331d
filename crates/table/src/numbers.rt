ghost use Rattle.std.specs.Prelude.{◌≡◌, false, [], ◌∷◌, MatchOption, if◌then◌else◌};
ghost use Rattle.table.specs.Numbers.{capped, well};
ghost use Rattle.table.specs.Pairs.{won, not_won, own, against};

use crate::{Pair, Side};

/// The greatest number: the other number of a decided pair.
pub const TOP: u32 = 1_000_000_000;

/// The sum of two proof or disproof numbers: `TOP` if either is, else at most `TOP` - 1.
pub fn capped_sum(a: u32, b: u32) -> u32
    ensures { result ≡ capped (a ∷ b ∷ []) }
{
    if a == TOP || b == TOP {
        return TOP;
    }
    a.saturating_add(b).min(TOP - 1)
}

impl Pair {
    /// The pair of a won position.
    pub const WON: Pair = Pair {
        proof: 0,
        disproof: TOP,
    };

    /// The pair of a position that is not won.
    pub const NOT_WON: Pair = Pair {
        proof: TOP,
        disproof: 0,
    };

    /// The pair of a position of which nothing is known.
    pub const FRESH: Pair = Pair {
        proof: 1,
        disproof: 1,
    };

    /// The pair of a proof number and a disproof number: `None` where they make no pair, which is won (0 and `TOP`), not won (`TOP` and 0)
    /// or open (both from 1 to `TOP` - 1).
    pub fn new(proof: u32, disproof: u32) -> Option<Pair>
        ensures { MatchOption result (well proof disproof ≡ false) (λ p. (p.proof ≡ proof) × (p.disproof ≡ disproof)) }
    {
        match (proof, disproof) {
            (0, TOP) | (TOP, 0) | (1..TOP, 1..TOP) => Some(Pair { proof, disproof }),
            _ => None,
        }
    }

    /// The pair of a value: `WON` for true, `NOT_WON` for false.
    pub fn of(value: bool) -> Pair
        ensures { result ≡ (if value then won else not_won) }
    {
        if value { Pair::WON } else { Pair::NOT_WON }
    }

    /// The proof number, from 0 to `TOP`.
    pub fn proof(&self) -> u32
        ensures { result ≡ self.now.proof }
    {
        self.proof
    }

    /// The disproof number, from 0 to `TOP`.
    pub fn disproof(&self) -> u32
        ensures { result ≡ self.now.disproof }
    {
        self.disproof
    }

    /// The number that the side to move wants to bring to 0.
    pub fn own(&self, side: Side) -> u32
        ensures { result ≡ own side self.now }
    {
        match side {
            Side::Attacker => self.proof,
            Side::Defender => self.disproof,
        }
    }

    /// The other number: the one that the other side wants to bring to 0.
    pub fn against(&self, side: Side) -> u32
        ensures { result ≡ against side self.now }
    {
        self.own(side.other())
    }
}
