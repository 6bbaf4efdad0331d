ghost use Rattle.std.specs.Prelude.{◌≡◌, Some};
ghost use Rattle.search_laws.specs.Words.{word, value_word};

use std::fmt;

/// What a trial says of its position.
#[derive(Clone, Copy, PartialEq, Eq, Debug)]
pub enum Verdict {
    /// the attacker wins
    Won,
    /// the attacker does not win
    NotWon,
    /// the budget is spent, and nothing is known
    Spent,
}

impl Verdict {
    /// The verdict of a value: `Won` for true, `NotWon` for false.
    pub fn of(value: bool) -> Verdict
        ensures { word result ≡ value_word value }
    {
        if value { Verdict::Won } else { Verdict::NotWon }
    }
}

/// `won`, `not-won` or `spent`.
impl fmt::Display for Verdict {
    ghost output = { λ verdict. Some (word verdict) };

    fn fmt<W: fmt::Write>(&self, f: &mut fmt::Formatter<W>) -> fmt::Result {
        f.write_str(match self {
            Verdict::Won => "won",
            Verdict::NotWon => "not-won",
            Verdict::Spent => "spent",
        })
    }
}

/// A trial's answer.
#[derive(Clone, Copy, PartialEq, Eq, Debug)]
pub struct Answer {
    pub verdict: Verdict,
    /// the expansions of its proof-number run
    pub expansions: u32,
    /// the entries of its plain search
    pub entries: u32,
}
