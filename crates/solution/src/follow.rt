ghost use Rattle.std.specs.Prelude.{◌≡◌, ℕ, ◌+◌, ◌<◌, length, None, Option, slice_index_or};
ghost use Rattle.game.specs.declared.state.State.TheVariants.{Attacker, Defender};
ghost use Rattle.game.specs.Tree.{nowhere, state, next};
ghost use Rattle.solution.specs.Solvers.{Stays};
ghost use Rattle.solution.specs.Following.{Ready, Followed, Attacks};
ghost use Rattle.solution.specs.Calls.{Solved};

use crate::answer::Solution;
use crate::attempt::best_move;
use crate::page::Page;
use crate::ply::Ply;
use crate::solver::Solver;
use crate::stop::{Stop, ending_of};
use game::{Game, State};
use solution_laws::Sign;
use table::Table;

// `Ready` bounds the ply by the plies that the position has left, and the sum by the lines on the page. No one value has these, so the
// functions ask it and no type keeps it. The page goes beside the solver: of a loan in a struct within a struct nothing is known later.
impl<'g, 't, 'r, G: Game, T: Table> Solver<'g, 't, 'r, G, T> {
    /// Tries all moves of an attacker's position, and writes its lines: which move is followed, if one wins.
    fn attack(
        &mut self,
        page: &mut Page<'_>,
        ply: Ply,
        intended: Option<usize>,
    ) -> Result<Option<usize>, Stop>
        requires ready { Ready ply.number (G.current self.old.game.now) page.old self.old.sum }
        requires attacker { state (G.current self.old.game.now) ≡ Attacker }
        ensures stays { Stays G.current G.earlier self.old self.new }
        ensures attacks { Attacks T.storing self.old.budget.amount ply.number intended (G.current self.old.game.now) (T.standing self.old.table.now) page.old self.old.sum result (T.standing self.new.table.now) page.new self.new.sum }
    {
        self.try_moves()?;
        let won = self.flags.as_slice();
        let Some(chosen) = best_move(intended, won) else {
            return Ok(None);
        };
        page.write_wins(self.game, ply, chosen, won)?;
        Ok(Some(chosen))
    }

    /// Writes what comes after a move: plays it, writes what comes at its successor, and takes it back.
    #[cycle(follow)]
    fn follow_move(&mut self, page: &mut Page<'_>, ply: Ply, i: usize) -> Result<(), Stop>
        requires ready { Ready ply.number (G.current self.old.game.now) page.old self.old.sum }
        requires number { i < length (next (G.current self.old.game.now)) }
        ensures stays { Stays G.current G.earlier self.old self.new }
        ensures follows { Followed T.storing self.old.budget.amount (ply.number + 1) None (slice_index_or (next (G.current self.old.game.now)) i nowhere) (T.standing self.old.table.now) page.old self.old.sum result (T.standing self.new.table.now) page.new self.new.sum }
    {
        self.game.play(i).unwrap();
        let after = self.follow(page, ply.next(), None);
        self.game.take_back().unwrap();
        after
    }

    /// Writes what comes at an attacker's position: its lines, and then what comes after the move that is followed.
    #[cycle(follow)]
    fn follow_best(
        &mut self,
        page: &mut Page<'_>,
        ply: Ply,
        intended: Option<usize>,
    ) -> Result<(), Stop>
        requires ready { Ready ply.number (G.current self.old.game.now) page.old self.old.sum }
        requires attacker { state (G.current self.old.game.now) ≡ Attacker }
        ensures stays { Stays G.current G.earlier self.old self.new }
        ensures follows { Followed T.storing self.old.budget.amount ply.number intended (G.current self.old.game.now) (T.standing self.old.table.now) page.old self.old.sum result (T.standing self.new.table.now) page.new self.new.sum }
    {
        match self.attack(page, ply, intended)? {
            Some(chosen) => self.follow_move(page, ply, chosen),
            None => Ok(()),
        }
    }

    /// Writes what comes at a defender's position: for each move a line, and then what comes after it.
    #[cycle(follow)]
    fn follow_replies(&mut self, page: &mut Page<'_>, ply: Ply) -> Result<(), Stop>
        requires ready { Ready ply.number (G.current self.old.game.now) page.old self.old.sum }
        requires defender { state (G.current self.old.game.now) ≡ Defender }
        ensures stays { Stays G.current G.earlier self.old self.new }
        ensures follows { (i : Option ℕ) → Followed T.storing self.old.budget.amount ply.number i (G.current self.old.game.now) (T.standing self.old.table.now) page.old self.old.sum result (T.standing self.new.table.now) page.new self.new.sum }
    {
        // a game's moves are numbers, in the trait and in the calls: the number is what is played
        for i in 0..self.game.count() {
            page.write_move(self.game, ply, Sign::Reply, i)?;
            self.follow_move(page, ply, i)?;
        }
        Ok(())
    }

    /// Writes what comes at the game's position.
    #[cycle(follow)]
    pub(crate) fn follow(
        &mut self,
        page: &mut Page<'_>,
        ply: Ply,
        intended: Option<usize>,
    ) -> Result<(), Stop>
        requires { Ready ply.number (G.current self.old.game.now) page.old self.old.sum }
        ensures stays { Stays G.current G.earlier self.old self.new }
        ensures follows { Followed T.storing self.old.budget.amount ply.number intended (G.current self.old.game.now) (T.standing self.old.table.now) page.old self.old.sum result (T.standing self.new.table.now) page.new self.new.sum }
    {
        match self.game.state() {
            State::Won => Ok(()),
            State::NotWon => Ok(()),
            State::Attacker => self.follow_best(page, ply, intended),
            State::Defender => self.follow_replies(page, ply),
        }
    }

    /// Makes the solution of the game's position, on a page with no line yet.
    pub(crate) fn finish(&mut self, page: &mut Page<'_>, intended: usize) -> Solution
        requires page { (page.old.lines ≡ 0) × (page.old.keys ≡ 0) × (page.old.duals ≡ 0) }
        requires sum { self.old.sum ≡ 0 }
        ensures stays { Stays G.current G.earlier self.old self.new }
        ensures buffer { page.new.buffer.ghost_name ≡ page.old.buffer.ghost_name }
        ensures solved { Solved T.storing (T.standing self.old.table.now) (G.current self.old.game.now) intended self.old.budget.amount page.old.buffer.now result (T.standing self.new.table.now) page.new.buffer.now }
    {
        let end = self.follow(page, Ply::FIRST, Some(intended));
        Solution {
            ending: ending_of(end),
            lines: page.lines,
            keys: page.keys,
            duals: page.duals,
            sum: self.sum,
        }
    }
}
