ghost use Rattle.std.specs.Prelude.{◌≡◌};
ghost use Rattle.tester.specs.Replies.{set_reply, move_reply, trial_reply, solution_reply};

use game::{Decline, SetDecline};
use search_laws::Answer;
use solution::Solution;

/// What a call answers.
#[derive(Clone, Copy, PartialEq, Eq, Debug)]
pub enum Reply {
    /// It is done, and has nothing else to say.
    Done,
    /// The text is not set up: why, and at which place.
    NotSet(SetDecline),
    /// The call is declined: why.
    Declined(Decline),
    /// A trial's answer.
    Tried(Answer),
    /// A solution's answer. Its lines are in the buffer.
    Solved(Solution),
}

/// The reply to a call that sets up a text.
impl From<Result<(), SetDecline>> for Reply {
    ghost from_gives = { λ outcome reply. reply ≡ set_reply outcome };

    fn from(outcome: Result<(), SetDecline>) -> Reply {
        outcome.map_or_else(Reply::NotSet, |()| Reply::Done)
    }
}

/// The reply to a call that plays a move or takes one back.
impl From<Result<(), Decline>> for Reply {
    ghost from_gives = { λ outcome reply. reply ≡ move_reply outcome };

    fn from(outcome: Result<(), Decline>) -> Reply {
        outcome.map_or_else(Reply::Declined, |()| Reply::Done)
    }
}

// A trial's and a solution's reply differ in their variant, so each has its own.
/// The reply to a trial.
impl From<Result<Answer, Decline>> for Reply {
    ghost from_gives = { λ outcome reply. reply ≡ trial_reply outcome };

    fn from(outcome: Result<Answer, Decline>) -> Reply {
        outcome.map_or_else(Reply::Declined, Reply::Tried)
    }
}

/// The reply to a solution.
impl From<Result<Solution, Decline>> for Reply {
    ghost from_gives = { λ outcome reply. reply ≡ solution_reply outcome };

    fn from(outcome: Result<Solution, Decline>) -> Reply {
        outcome.map_or_else(Reply::Declined, Reply::Solved)
    }
}
