ghost use Rattle.std.specs.Prelude.{◌≡◌, ◌<◌, ◌≤◌, [], ◌∷◌, length, MatchOption, MatchResult};
ghost use Rattle.game.specs.Limits.{depth_limit};
ghost use Rattle.game.specs.Paths.{before};

use crate::Path;
use arrayvec::ArrayVec;
use std::mem;

impl<P: Drop> Path<P> {
    /// A path of one position.
    #[tactic(auto, unfolding(crate::specs::Places::held))]
    pub fn new(current: P) -> Path<P>
        ensures at { result.current ≡ current }
        ensures alone { before result ≡ [] }
    {
        Path {
            current,
            earlier: ArrayVec::new(),
        }
    }

    /// The current position.
    pub fn current(&self) -> &P
        ensures { result.now ≡ self.now.current }
    {
        &self.current
    }

    /// Puts another value in the place of the current position.
    pub fn renew(&mut self, current: P)
        ensures at { self.new.current ≡ current }
        ensures kept { before self.new ≡ before self.old }
    {
        self.current = current;
    }

    /// One position more, which is then the current one. It is handed back where the path has 33 positions already.
    pub fn advance(&mut self, next: P) -> Result<(), P>
        ensures { MatchResult result
            (λ _. (length (before self.old) < depth_limit)
            × (self.new.current ≡ next)
            × (before self.new ≡ self.old.current ∷ before self.old))
            (λ p. (depth_limit ≤ length (before self.old))
            × (self.new.current ≡ self.old.current)
            × (before self.new ≡ before self.old)
            × (p ≡ next)) }
    {
        if self.earlier.is_full() {
            return Err(next);
        }
        let left = mem::replace(&mut self.current, next);
        self.earlier.push(Some(left));
        Ok(())
    }

    /// The current position leaves, and the latest earlier one is current again. None where the path has one position, which stays.
    pub fn retreat(&mut self) -> Option<P>
        ensures { MatchOption result
            ((before self.old ≡ [])
            × (self.new.current ≡ self.old.current)
            × (before self.new ≡ []))
            (λ p. (before self.old ≡ self.new.current ∷ before self.new)
            × (p ≡ self.old.current)) }
    {
        let latest = self.earlier.pop()??;
        Some(mem::replace(&mut self.current, latest))
    }
}
