ghost use Rattle.std.specs.Prelude.{◌≡◌, ◌<◌, ◌≤◌, MatchOption};
ghost use Rattle.game.specs.Limits.{named_causes};

/// The largest number of a cause that has a name of its own.
const NAMED: u8 = 10;

/// A cause of a game's own. It is known by its number alone, which is above those of the ten causes that have a name.
#[derive(Clone, Copy, PartialEq, Eq, Debug)]
pub struct OwnCause {
    number: u8,
    ghost above: { named_causes < number },
}

impl OwnCause {
    /// The cause of the number: none exactly where that is 0 or the number of a cause that has a name.
    pub fn new(number: u8) -> Option<OwnCause>
        ensures { MatchOption result
            (number ≤ named_causes)
            (λ cause. (cause.number ≡ number) × (named_causes < number)) }
    {
        if number <= NAMED {
            return None;
        }
        Some(OwnCause { number })
    }

    /// The number by which the cause is known.
    pub fn number(self) -> u8
        ensures is { result ≡ self.number }
        ensures above { named_causes < result }
    {
        self.number
    }
}
