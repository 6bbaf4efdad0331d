ghost use Rattle.std.specs.Prelude.{◌≡◌, ◌<◌, List, [], ◌∷◌, length, MatchBool, MatchOption, MatchResult};
ghost use Rattle.stack.specs.Contents.{contents, above, room, LiesIn, InTheSameSlice};

use crate::Stack;
use crate::slots::{put, top_of};

impl<'a, T> Stack<'a, T> {
    /// An empty stack in a lent slice, with room for as many entries as the slice is long.
    pub fn new(slots: &'a mut [T]) -> Self
        ensures empty { contents result ≡ [] }
        ensures above { above result ≡ slots.old }
        ensures room { room result ≡ length slots.old }
        ensures slice { LiesIn result slots.entry }
    {
        Stack { slots, len: 0 }
    }

    /// The top entry: `None` where the stack is empty.
    pub fn top(&self) -> Option<&T>
        ensures { MatchOption result
            (contents self.now ≡ [])
            (λ e. (below : List T) × (contents self.now ≡ e.now ∷ below)) }
    {
        top_of(self.slots, self.len)
    }

    /// Takes the top entry off and leaves it where it lies: whether there was one.
    pub fn discard(&mut self) -> bool
        ensures discarded { MatchBool result
            ((e : T) × (contents self.old ≡ e ∷ contents self.new) × (above self.new ≡ e ∷ above self.old))
            ((contents self.old ≡ []) × (contents self.new ≡ []) × (above self.new ≡ above self.old)) }
        ensures room { room self.new ≡ room self.old }
        ensures slice { InTheSameSlice self.old self.new }
    {
        if self.len == 0 {
            return false;
        }
        self.len -= 1;
        true
    }
}

impl<'a, T: Drop> Stack<'a, T> {
    /// Adds an entry on top, in place of what was there: `Err`, with the entry, where the stack is full.
    pub fn push(&mut self, entry: T) -> Result<(), T>
        ensures pushed { MatchResult result
            (λ _. (length (contents self.old) < room self.old)
            × (contents self.new ≡ entry ∷ contents self.old))
            (λ e. (e ≡ entry) × (length (contents self.old) ≡ room self.old)
            × (contents self.new ≡ contents self.old)) }
        ensures above { MatchResult result
            (λ _. (e : T) × (above self.old ≡ e ∷ above self.new))
            (λ _. (above self.old ≡ []) × (above self.new ≡ [])) }
        ensures room { room self.new ≡ room self.old }
        ensures slice { InTheSameSlice self.old self.new }
    {
        match put(self.slots, self.len, entry) {
            Ok(()) => {
                self.len += 1;
                Ok(())
            }
            Err(entry) => Err(entry),
        }
    }
}

impl<'a, T: Copy> Stack<'a, T> {
    /// Takes the top entry off: `None` where the stack is empty.
    pub fn pop(&mut self) -> Option<T>
        ensures popped { MatchOption result
            ((contents self.old ≡ []) × (contents self.new ≡ []))
            (λ e. contents self.old ≡ e ∷ contents self.new) }
        ensures above { MatchOption result
            (above self.new ≡ above self.old)
            (λ e. above self.new ≡ e ∷ above self.old) }
        ensures room { room self.new ≡ room self.old }
        ensures slice { InTheSameSlice self.old self.new }
    {
        let entry = self.top().copied();
        self.discard();
        entry
    }
}
