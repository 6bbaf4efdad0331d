ghost use Rattle.std.specs.Prelude.{◌≡◌, ◌≤◌, length, Some, None, MatchResult};
ghost use Rattle.game.specs.Declines.{number};
ghost use Rattle.game.specs.Limits.{records_needed};
ghost use Rattle.solution.specs.Limits.{buffer_limit};
ghost use Rattle.solution.specs.Calls.{declined, Solved, Answered, Right};

use crate::answer::Solution;
use crate::page::Page;
use crate::solver::Solver;
use arrayvec::ArrayVec;
use game::{Decline, Game, State};
use search::{Budget, Records};
use table::{Pair, Table};

/// The length in bytes of the largest buffer.
pub const BYTES: usize = 32_768;

/// Whether a solution with a buffer of so many bytes is made, and if not, why.
fn accept<G: Game>(game: &G, intended: usize, bytes: usize) -> Result<(), Decline>
    ensures { MatchResult result
        (λ _. declined (G.current game.now) intended 0 records_needed bytes ≡ None)
        (λ cause. declined (G.current game.now) intended 0 records_needed bytes ≡ Some (number cause)) }
{
    if bytes % 8 != 0 || bytes > BYTES {
        return Err(Decline::Buffer);
    }
    if game.state() != State::Attacker {
        return Err(Decline::NotAttacker);
    }
    if game.count() <= intended {
        return Err(Decline::MoveNumber);
    }
    Ok(())
}

/// Makes the solution of the current position, and writes its lines.
// It takes what `solve` takes: written out there, the proof did not close, since what the solver's loans hold at the end was not found.
fn write_solution<G: Game, T: Table>(
    game: &mut G,
    table: &mut T,
    intended: usize,
    budget: Budget,
    records: &mut Records,
    buffer: &mut [u8],
) -> Solution
    requires { length buffer.old ≤ buffer_limit }
    ensures at { G.current game.new ≡ G.current game.old }
    ensures path { G.earlier game.new ≡ G.earlier game.old }
    ensures solved { Solved T.storing (T.standing table.old) (G.current game.old) intended budget.amount buffer.old result (T.standing table.new) buffer.new }
{
    let mut page = Page {
        buffer,
        lines: 0,
        keys: 0,
        duals: 0,
    };
    let mut solver = Solver {
        game,
        table,
        budget,
        records,
        flags: ArrayVec::new(),
        sum: 0,
    };
    solver.finish(&mut page, intended)
}

/// The solution of the current position, from where the table stands, with the intended move's number, each trial's budget and the records that trials
/// may use: its lines, eight bytes each, are written into the buffer from its start on. Declined, with nothing changed, in this order:
/// `Budget` where the budget is above 99,999,999, `Records` where there are fewer than 6,144 of them, `Buffer` where the buffer's length is
/// no multiple of 8 or over 32,768, `NotAttacker` where the attacker is not to move, `MoveNumber` where the intended move's number is not
/// below the count of moves.
pub fn solve<G: Game, T: Table>(
    game: &mut G,
    table: &mut T,
    intended: usize,
    budget: u32,
    records: &mut [Pair],
    buffer: &mut [u8],
) -> Result<Solution, Decline>
    ensures at { G.current game.new ≡ G.current game.old }
    ensures path { G.earlier game.new ≡ G.earlier game.old }
    ensures answered { Answered T.storing (T.standing table.old) (G.current game.old) intended budget records.old buffer.old result (T.standing table.new) records.new buffer.new }
    ensures right { Right G.positions T.storing (T.standing table.old) (G.current game.old) budget result (T.standing table.new) buffer.new }
{
    let budget = Budget::new(budget)?;
    let Some(records) = records.first_chunk_mut() else {
        return Err(Decline::Records);
    };
    accept(game, intended, buffer.len())?;
    Ok(write_solution(game, table, intended, budget, records, buffer))
}
