ghost use Rattle.std.specs.Prelude.{◌≡◌, codes};
ghost use Rattle.solution_laws.specs.Words.{word};
ghost use Rattle.solution.specs.Stops.{stop_word, end_word};

use crate::page::Full;
use solution_laws::Ending;

/// Why a solution ends before it is done: a trial was spent, or a line did not fit.
#[derive(Clone, Copy, PartialEq, Eq, Debug)]
pub(crate) enum Stop {
    Spent,
    Cut,
}

impl From<Full> for Stop {
    ghost from_gives = { λ _ stop. stop_word stop ≡ codes "cut" };

    fn from(_full: Full) -> Stop {
        Stop::Cut
    }
}

impl From<Stop> for Ending {
    ghost from_gives = { λ stop ending. word ending ≡ stop_word stop };

    fn from(stop: Stop) -> Ending {
        match stop {
            Stop::Spent => Ending::Spent,
            Stop::Cut => Ending::Cut,
        }
    }
}

/// How a solution ends, from how its following did.
pub(crate) fn ending_of(end: Result<(), Stop>) -> Ending
    ensures { word result ≡ end_word end }
{
    end.map_or_else(Ending::from, |()| Ending::Done)
}
