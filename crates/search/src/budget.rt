ghost use Rattle.std.specs.Prelude.{◌≡◌, ◌<◌, ◌≤◌, MatchResult};
ghost use Rattle.game.specs.Declines.{number};
ghost use Rattle.search_laws.specs.Calls.{budget_limit};

use game::Decline;

/// The largest budget of a trial.
pub const MOST: u32 = 99_999_999;

/// A budget that a trial takes: at most 99,999,999 expansions and entries together.
#[derive(Clone, Copy, PartialEq, Eq, Debug)]
pub struct Budget {
    amount: u32,
    ghost within: { amount ≤ budget_limit },
}

impl Budget {
    /// The budget of so many expansions and entries. Declined, as `Decline::Budget`, exactly where they are more than 99,999,999.
    pub fn new(amount: u32) -> Result<Budget, Decline>
        ensures { MatchResult result
            (λ budget. budget.amount ≡ amount)
            (λ cause. (budget_limit < amount) × (number cause ≡ 1)) }
    {
        if amount > MOST {
            return Err(Decline::Budget);
        }
        Ok(Budget { amount })
    }

    /// How many expansions and entries it allows.
    pub fn amount(self) -> u32
        ensures is { result ≡ self.amount }
        ensures within { result ≤ budget_limit }
    {
        self.amount
    }
}
