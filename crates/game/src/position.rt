ghost use Rattle.std.specs.Prelude.{◌≡◌, ℕ, ◌<◌, ◌≤◌, List, [], length, MatchOption, MatchResult, ◌≢◌, slice_index_or};
ghost use Rattle.std.specs.List.{slice_get};
ghost use Rattle.game.specs.Tree.{Tree, Reading, position, refused, nowhere, state, rank, code, next, words};
ghost use Rattle.game.specs.Declines.{number};
ghost use Rattle.game.specs.Rules.{Rules};

use crate::{SetDecline, State};

/// A position of a game, as a tree of the positions that can come after it.
pub trait Position: Default + Drop {
    // the tree of a position, a fresh game's, and which trees are positions of the game
    ghost tree: { Self → Tree };

    ghost start: { Tree };

    ghost positions: { Tree → Type 0 };

    ghost depth: { ℕ };

    ghost width: { ℕ };

    // what a text says under an aim: a position, or the number of the cause for which it is refused and the place
    ghost reading: { List ℕ → ℕ → Reading };

    /// A fresh game's position, the same for every fresh game.
    fn fresh() -> Self
        ensures { tree result ≡ start };

    /// The position that a text says under an aim, or why it is refused.
    fn read(text: &[u8], aim: u32) -> Result<Self, SetDecline>
        ensures { MatchResult result
            (λ p. reading text.now aim ≡ position (tree p))
            (λ e. reading text.now aim ≡ refused (number e.cause) e.place) };

    /// Who is to move, or how the game has ended.
    fn state(&self) -> State
        ensures { result ≡ state (tree self.now) };

    /// How many moves there are: they are numbered from 0.
    fn count(&self) -> usize
        ensures { result ≡ length (next (tree self.now)) };

    /// A bound on the moves that can still be played one after the other.
    fn rank(&self) -> usize
        ensures { result ≡ rank (tree self.now) };

    /// Five words that no other position of the game has.
    fn code(&self) -> [u64; 5]
        ensures { result ≡ code (tree self.now) };

    /// The text of a move: none where there is no move of that number.
    fn text(&self, i: usize) -> Option<[u8; 5]>
        ensures { result ≡ slice_get (words (tree self.now)) i };

    /// The number of the move that has the text: none where no move has it.
    fn find(&self, text: &[u8; 5]) -> Option<usize>
        ensures { MatchOption result
            ((i : ℕ) → i < length (words (tree self.now)) → slice_index_or (words (tree self.now)) i [] ≢ text.now)
            (λ i. (i < length (words (tree self.now)))
            × (slice_index_or (words (tree self.now)) i [] ≡ text.now)) }
    {
        (0..self.count()).find(|i| self.text(*i) == Some(*text))
    }

    /// The position after a move: none where there is no move of that number.
    fn after(&self, i: usize) -> Option<Self>
        ensures { MatchOption result
            (length (next (tree self.now)) ≤ i)
            (λ p. (i < length (next (tree self.now)))
            × (tree p ≡ slice_index_or (next (tree self.now)) i nowhere)) };

    /// Makes ready for calls of `after`, which are then faster where the game has work that they share. The position stays.
    fn prepare(&mut self)
        ensures { tree self.new ≡ tree self.old }
    {}

    ghost lawful: { Rules start positions depth width reading };

    ghost within: { (p : Self) → positions (tree p) };
}
