ghost use Rattle.std.specs.Prelude.{◌≡◌};
ghost use Rattle.std.specs.List.{slice_get};
ghost use Rattle.chess.specs.Choices.{choices_of};

use crate::Level;
use crate::problem::Problem;
use chess_moves::Move;

impl Level {
    /// A position whose moves are not listed yet.
    pub(crate) fn new(problem: Problem) -> Level
        ensures { result.problem ≡ problem }
    {
        Level {
            problem,
            list: None,
        }
    }

    /// The move of a number: none where there is none, and where no ply is left.
    pub(crate) fn pick(&self, i: usize) -> Option<Move>
        ensures { result ≡ slice_get (choices_of self.now.problem) i }
    {
        if self.problem.plies == 0 {
            return None;
        }
        // lent where it is kept and made where it is not, as in the impl of `Position`: one function that lends either would lend what it made
        match &self.list {
            Some(list) => list.get(i),
            None => self.problem.position.moves().get(i),
        }
    }
}
