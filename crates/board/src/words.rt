ghost use Rattle.std.specs.Prelude.{◌≡◌, ◌^◌};
ghost use Rattle.board.specs.Masks.{bit, size};

use crate::Square;

impl Square {
    /// The word that has the bit of this square alone.
    pub fn single(self) -> u64
        ensures { result ≡ 2 ^ self.number }
    {
        1 << self.number
    }

    /// Whether the word has the bit of the square.
    #[tactic(auto, using(crate::proofs::Bits::bit_test))]
    pub fn within(self, word: u64) -> bool
        ensures { result ≡ bit word self.number }
    {
        word & (1 << self.number) != 0
    }
}

/// How many squares the word has.
pub fn count(word: u64) -> u32
    ensures { result ≡ size (bit word) }
{
    word.count_ones()
}
