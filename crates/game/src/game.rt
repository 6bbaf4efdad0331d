ghost use Rattle.std.specs.Prelude.{◌≡◌, ℕ, ◌<◌, ◌≤◌, List, [], ◌∷◌, length, MatchOption, MatchResult, ◌≢◌, slice_index_or};
ghost use Rattle.std.specs.List.{slice_get};
ghost use Rattle.game.specs.Tree.{Tree, Reading, position, refused, nowhere, state, rank, code, next, words};
ghost use Rattle.game.specs.Declines.{number};
ghost use Rattle.game.specs.Rules.{Rules};

use crate::{Decline, SetDecline, State};

/// A game: a path of positions, the first set up and the last current. Questions change nothing.
pub trait Game: Sized {
    // the path: the current position, and the earlier ones, the latest first
    ghost current: { Self → Tree };

    ghost earlier: { Self → List Tree };

    // a fresh game's position, and which trees are positions of this game
    ghost start: { Tree };

    ghost positions: { Tree → Type 0 };

    ghost depth: { ℕ };

    ghost width: { ℕ };

    // what a text says under an aim: a position, or the number of the cause for which it is refused and the place
    ghost reading: { List ℕ → ℕ → Reading };

    /// A path of one position, the same for every fresh game.
    fn fresh() -> Self
        ensures at { current result ≡ start }
        ensures alone { earlier result ≡ [] };

    /// Sets up what a text says under an aim: it is then the whole path. A refusal leaves the path.
    fn set(&mut self, text: &[u8], aim: u32) -> Result<(), SetDecline>
        ensures { MatchResult result
            (λ _. (reading text.now aim ≡ position (current self.new))
            × (earlier self.new ≡ []))
            (λ e. (reading text.now aim ≡ refused (number e.cause) e.place)
            × (current self.new ≡ current self.old)
            × (earlier self.new ≡ earlier self.old)) };

    /// Who is to move, or how the game has ended.
    fn state(&self) -> State
        ensures { result ≡ state (current self.now) };

    /// How many moves there are: they are numbered from 0.
    fn count(&self) -> usize
        ensures { result ≡ length (next (current self.now)) };

    /// A bound on the moves that can still be played one after the other.
    fn rank(&self) -> usize
        ensures { result ≡ rank (current self.now) };

    /// The code of the current position: five words that no other position of the game has.
    fn code(&self) -> [u64; 5]
        ensures { result ≡ code (current self.now) };

    /// The text of a move: none where there is no move of that number.
    fn text(&self, i: usize) -> Option<[u8; 5]>
        ensures { result ≡ slice_get (words (current self.now)) i };

    /// The number of the move that has the text: none where no move has it.
    fn find(&self, text: &[u8; 5]) -> Option<usize>
        ensures { MatchOption result
            ((i : ℕ) → i < length (words (current self.now)) → slice_index_or (words (current self.now)) i [] ≢ text.now)
            (λ i. (i < length (words (current self.now)))
            × (slice_index_or (words (current self.now)) i [] ≡ text.now)) };

    /// Plays a move: declined exactly where there is no move of that number, and the path stays.
    fn play(&mut self, i: usize) -> Result<(), Decline>
        ensures { MatchResult result
            (λ _. (i < length (next (current self.old)))
            × (current self.new ≡ slice_index_or (next (current self.old)) i nowhere)
            × (earlier self.new ≡ current self.old ∷ earlier self.old))
            (λ e. (length (next (current self.old)) ≤ i)
            × (current self.new ≡ current self.old)
            × (earlier self.new ≡ earlier self.old)
            × (number e ≡ 5)) };

    /// Takes the last move back: declined exactly where the path has one position, and the path stays.
    fn take_back(&mut self) -> Result<(), Decline>
        ensures { MatchResult result
            (λ _. earlier self.old ≡ current self.new ∷ earlier self.new)
            (λ e. (earlier self.old ≡ [])
            × (current self.new ≡ current self.old)
            × (earlier self.new ≡ [])
            × (number e ≡ 6)) };

    ghost lawful: { Rules start positions depth width reading };

    ghost within: { (g : Self) → positions (current g) };
}
