ghost use Rattle.std.specs.Prelude.{◌≡◌, ◌<◌, ◌≤◌, length, IfSome, MatchOption, MatchResult, slice_index_or, refl};
ghost use Rattle.game.specs.Tree.{position, refused, nowhere, next};
ghost use Rattle.game.specs.Declines.{number};
ghost use Rattle.chess.specs.Limits.{plies_limit, moves_limit};
ghost use Rattle.chess.specs.Positions.{IsTree, level_tree, fresh_tree};
ghost use Rattle.chess.specs.Problems.{problem_of, Follows};
ghost use Rattle.chess.specs.Setting.{reading_of, Sets, Refuses};
ghost use Rattle.chess.specs.Laws.{chess_rules_hold};
ghost use Rattle.chess.specs.Grown.{keeps_of};

use crate::problem::Problem;
use crate::{Level, texts};
use game::{Position, SetDecline, State};

/// A fresh game's position, its moves not listed yet.
impl Default for Level {
    ghost is_default = { λ l. level_tree l ≡ fresh_tree };

    fn default() -> Self {
        Level::new(Problem::fresh())
    }
}

impl Position for Level {
    ghost tree = { level_tree };

    ghost start = { fresh_tree };

    ghost positions = { IsTree };

    ghost depth = { plies_limit };

    ghost width = { moves_limit };

    ghost reading = { reading_of };

    ghost lawful = { chess_rules_hold };

    ghost within = { λ l.
        let p = l.problem in
        record { attacker = p.attacker; plies = p.plies; diagram = p.position.diagram; few = p.short; lawful = keeps_of p; turn = p.turn; is = refl } };

    fn fresh() -> Self {
        let mut level = Level::default();
        level.prepare();
        level
    }

    fn read(text: &[u8], aim: u32) -> Result<Self, SetDecline>
        ensures reading { MatchResult result
            (λ l. reading_of text.now aim ≡ position (level_tree l))
            (λ e. reading_of text.now aim ≡ refused (number e.cause) e.place) }
        ensures meaning { MatchResult result
            (λ l. Sets text.now aim (problem_of l))
            (λ e. Refuses text.now aim (number e.cause) e.place) }
    {
        let mut level = Level::new(Problem::read(text, aim)?);
        level.prepare();
        Ok(level)
    }

    // Here and below the list is lent where it is kept and made where it is not: one function that lends either would lend what it made,
    // and one that is handed what to ask of the list would be no plainer.

    fn state(&self) -> State {
        match &self.list {
            Some(list) => self.problem.standing(list.len() == 0),
            None => self.problem.state(),
        }
    }

    // None where no ply is left.
    #[tactic(auto, using(crate::proofs::Holding::count_zero))]
    fn count(&self) -> usize {
        if self.problem.plies == 0 {
            return 0;
        }
        match &self.list {
            Some(list) => list.len(),
            None => self.problem.position.moves().len(),
        }
    }

    // The plies left.
    #[tactic(auto, using(crate::specs::Grown::rank_is))]
    fn rank(&self) -> usize {
        self.problem.plies as usize
    }

    fn code(&self) -> [u64; 5] {
        self.problem.code()
    }

    fn text(&self, i: usize) -> Option<[u8; 5]> {
        let step = self.pick(i)?;
        Some(texts::text_of(step))
    }

    // The moves are listed once, and not for each text.
    fn find(&self, text: &[u8; 5]) -> Option<usize> {
        if self.problem.plies == 0 {
            return None;
        }
        match &self.list {
            Some(list) => texts::find(list, text),
            None => texts::find(&self.problem.position.moves(), text),
        }
    }

    fn after(&self, i: usize) -> Option<Self>
        ensures next { MatchOption result
            (length (next (level_tree self.now)) ≤ i)
            (λ l. (i < length (next (level_tree self.now)))
            × (level_tree l ≡ slice_index_or (next (level_tree self.now)) i nowhere)) }
        ensures follows { IfSome result (λ l. Follows (problem_of self.now) i (problem_of l)) }
    {
        let step = self.pick(i)?;
        Some(Level::new(self.problem.moved(step)))
    }

    // Lists the moves, unless they are listed.
    #[tactic(auto, using(crate::proofs::Same::kept_from))]
    fn prepare(&mut self)
        ensures tree { level_tree self.new ≡ level_tree self.old }
        ensures problem { problem_of self.new ≡ problem_of self.old }
    {
        if self.list.is_none() {
            self.list = Some(self.problem.position.moves());
        }
    }
}
