#![tactic(auto)]

ghost use Rattle.search_laws.specs.Claims.{OnePair, FramesAreActive, GivenReaches, RunsAreRight, TrialsAreRight, FramesCount, ExpansionsCount, ThresholdsTell, TakesAnother, SpentIsMeant, RunsLast, VerdictsLast, RunsAgree, FramesAgree, TrialsAgree, RunsEnd, FramesEnd, TrialsEnd, RunsDecide};
ghost use Rattle.search_laws.specs.Examples.{LawsKept, ChainTrials, NewestTrials, FiveTrials, WideTrials};
ghost use Rattle.search_laws.specs.Words.{VerdictTells};

use game::Game;
use table::Table;

mod answer;
mod thresholds;

pub use answer::{Answer, Verdict};
pub use thresholds::Thresholds;

/// Where a table shows no false decided pair, it shows none after a run, a frame of it or a trial; a pair that a frame hands on is right, and
/// a verdict won or not won is minimax's.
pub fn trials_are_right<G: Game, T: Table>()
    ensures runs { RunsAreRight G.positions T.storing }
    ensures trials { TrialsAreRight G.positions T.storing }
{}

/// A run that gave a pair gives it with more expansions too, and a verdict won or not won stays with any larger budget.
pub fn verdicts_last<G: Game, T: Table>()
    ensures runs { RunsLast T.storing }
    ensures trials { VerdictsLast G.positions T.storing }
{}

/// A trial says spent only where the plain search needs more than its share.
pub fn spent_is_meant<T: Table>()
    ensures { SpentIsMeant T.storing }
{}

/// A frame has one pair of its own, a run and a frame at work have one outcome, and a trial one answer and one standing of the table after it.
pub fn trials_agree<T: Table>()
    ensures pairs { OnePair }
    ensures runs { RunsAgree T.storing }
    ensures frames { FramesAgree T.storing }
    ensures trials { TrialsAgree T.storing }
{}

/// Every run, every frame at work and every trial ends.
pub fn trials_end<T: Table>()
    ensures runs { RunsEnd T.storing }
    ensures frames { FramesEnd T.storing }
    ensures trials { TrialsEnd T.storing }
{}

/// The pair that a run gives is decided.
pub fn runs_decide<T: Table>()
    ensures { RunsDecide T.storing }
{}

/// In a run from a position that has not ended no frame belongs to one that has; a frame hands on a pair only with a threshold reached; and
/// expansions are the frames entered.
pub fn frames_count<T: Table>()
    ensures active { FramesAreActive T.storing }
    ensures gives { GivenReaches T.storing }
    ensures frames { FramesCount T.storing }
    ensures expansions { ExpansionsCount T.storing }
{}

/// A frame is left exactly when the frame that took it would take another successor or is to be left itself: this pins both thresholds.
pub fn thresholds_tell<T: Table>()
    ensures tells { ThresholdsTell }
    ensures another { TakesAnother T.storing }
{}

/// Verdicts of the same word are the same: a word tells its verdict.
pub fn verdict_tells()
    ensures { VerdictTells }
{}

/// Trials by hand, over trees that keep the laws of a game, each with its expansions and with the pairs that the table shows at the end: a
/// chain of two moves, the same twice with the newest policy, five positions where a frame is left and entered again, and
/// sixteen with transpositions.
pub fn worked_trials()
    ensures lawful { LawsKept }
    ensures chain { ChainTrials }
    ensures newest { NewestTrials }
    ensures five { FiveTrials }
    ensures wide { WideTrials }
{}
