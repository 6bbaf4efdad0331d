ghost use Rattle.std.specs.Prelude.{◌≡◌, ◌*◌, ◌<◌, ◌≤◌, false, length, slice_index_or};
ghost use Rattle.std.specs.List.{position};
ghost use Rattle.game.specs.Tree.{nowhere, moves, next};
ghost use Rattle.search_laws.specs.Trial.{Trial};
ghost use Rattle.solution_laws.specs.Solution.{best};
ghost use Rattle.solution.specs.Solvers.{Stays};
ghost use Rattle.solution.specs.Attempts.{most, Valued, Attempted};

use crate::solver::Solver;
use crate::stop::Stop;
use game::Game;
use search::try_position;
use search_laws::{Answer, Verdict};
use table::Table;

/// A verdict as a value, if it is one.
fn value(verdict: Verdict) -> Result<bool, Stop>
    ensures { Valued verdict result }
{
    match verdict {
        Verdict::Won => Ok(true),
        Verdict::NotWon => Ok(false),
        Verdict::Spent => Err(Stop::Spent),
    }
}

impl<'g, 't, 'r, G: Game, T: Table> Solver<'g, 't, 'r, G, T> {
    /// A trial on the successor of number i.
    fn try_move(&mut self, i: usize) -> Answer
        requires { i < length (next (G.current self.old.game.now)) }
        ensures stays { Stays G.current G.earlier self.old self.new }
        ensures flags { self.new.flags ≡ self.old.flags }
        ensures sum { self.new.sum ≡ self.old.sum }
        ensures tried { Trial T.storing (T.standing self.old.table.now) (slice_index_or (next (G.current self.old.game.now)) i nowhere) self.old.budget.amount result (T.standing self.new.table.now) }
    {
        self.game.play(i).unwrap();
        let answer = try_position(self.game, self.table, self.budget, self.records);
        self.game.take_back().unwrap();
        answer
    }

    /// Tries all moves, each on its successor with the full budget, in order, up to the first that is spent; a flag says of each whether it
    /// wins.
    pub(crate) fn try_moves(&mut self) -> Result<(), Stop>
        requires { self.old.sum ≤ most * 4096 }
        ensures stays { Stays G.current G.earlier self.old self.new }
        ensures tried { Attempted T.storing self.old.budget.amount (T.standing self.old.table.now) (moves (G.current self.old.game.now)) self.new.flags.items self.old.sum result (T.standing self.new.table.now) self.new.sum }
    {
        self.flags.clear();
        // a game's moves are numbers, in the trait and in the calls: the number is what is played
        for i in 0..self.game.count() {
            let answer = self.try_move(i);
            self.sum += u64::from(answer.expansions) + u64::from(answer.entries);
            let won = value(answer.verdict)?;
            self.flags.push(won);
        }
        Ok(())
    }
}

/// The number of the first move that wins.
fn first_to_win(flags: &[bool]) -> Option<usize>
    ensures { result ≡ position (λ won. won) flags.now }
{
    flags.iter().position(|won| *won)
}

/// Whether the move of number i wins.
fn wins_at(flags: &[bool], i: usize) -> bool
    ensures { result ≡ slice_index_or flags.now i false }
{
    flags.get(i).copied().unwrap_or(false)
}

/// The number of the intended move if it wins, else of the first that wins.
#[tactic(auto, using(crate::proofs::Attempts::position_first_win))]
pub(crate) fn best_move(intended: Option<usize>, flags: &[bool]) -> Option<usize>
    ensures { result ≡ best intended flags.now }
{
    intended
        .filter(|i| wins_at(flags, *i))
        .or_else(|| first_to_win(flags))
}
