ghost use Rattle.solution_laws.specs.Words.{EndingTells};
ghost use Rattle.solution_laws.specs.Lines.{LinesAreRead, OnlyLinesAreRead};
ghost use Rattle.solution_laws.specs.Claims.{SolutionsAreRight, SpentIsMeant, SolutionsAgree, SolutionsEnd, SolutionsFit};

use game::Game;
use table::Table;

/// Endings of the same word are the same.
pub fn ending_tells()
    ensures { EndingTells }
{}

/// Where a table shows no false decided pair, it shows none after a solution; its attacker's lines are for moves that win, and if it is done
/// it has a line for each key.
pub fn solutions_are_right<G: Game, T: Table>()
    ensures { SolutionsAreRight G.positions T.storing }
{}

/// A solution says spent only where some position after a move or more from its start needs more than the share.
pub fn spent_is_meant<T: Table>()
    ensures { SpentIsMeant T.storing }
{}

/// A solution has one outcome: its part, so one answer and one buffer, and one standing of the table after it.
pub fn solutions_agree<T: Table>()
    ensures one { SolutionsAgree T.storing }
    ensures some { SolutionsEnd T.storing }
{}

/// Each line of a solution has eight bytes, from the bytes in a buffer the lines can be read again, and no other bytes are read as lines.
pub fn lines_are_read<G: Game, T: Table>()
    ensures fit { SolutionsFit G.positions T.storing }
    ensures read { LinesAreRead }
    ensures only { OnlyLinesAreRead }
{}
