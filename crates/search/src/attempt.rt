ghost use Rattle.std.specs.Prelude.{◌≡◌};
ghost use Rattle.game.specs.Tree.{code};
ghost use Rattle.search_laws.specs.Trial.{decided, known, pair_of, Trial};
ghost use Rattle.search_laws.specs.declared.answer.Answer.{Answer as Kept};
ghost use Rattle.search_laws.specs.Calls.{Tried, Right};

use crate::budget::Budget;
use crate::listing::known_pair;
use crate::plain::plain_search;
use crate::proof_number::run;
use crate::records::Records;
use game::{Decline, Game};
use search_laws::{Answer, Verdict};
use table::{Pair, Table};

// The value of a pair, if it is decided.
fn value_of(pair: Pair) -> Option<bool>
    ensures { result ≡ decided pair }
{
    if pair == Pair::WON {
        return Some(true);
    }
    if pair == Pair::NOT_WON {
        return Some(false);
    }
    None
}

// The value where nothing has to be searched: the position has ended, or the table shows a decided pair for it.
fn known_value<G: Game, T: Table>(game: &G, table: &T) -> Option<bool>
    ensures { result ≡ known (T.storing.shows (T.standing table.now)) (G.current game.now) }
{
    known_pair(game, table).and_then(value_of)
}

/// A trial on the current position, from where the table stands, with a budget and the records that it may use. Declined with
/// `Decline::Budget` where the budget is above 99,999,999, and else with `Decline::Records` where the records are fewer than 6,144.
pub fn trial<G: Game, T: Table>(
    game: &mut G,
    table: &mut T,
    budget: u32,
    records: &mut [Pair],
) -> Result<Answer, Decline>
    ensures at { G.current game.new ≡ G.current game.old }
    ensures path { G.earlier game.new ≡ G.earlier game.old }
    ensures right { Right G.positions T.storing (T.standing table.old) (G.current game.old) budget result (T.standing table.new) }
    ensures tried { Tried T.storing (T.standing table.old) (G.current game.old) budget records.old result (T.standing table.new) records.new }
{
    let budget = Budget::new(budget)?;
    let Some(records) = records.first_chunk_mut() else {
        return Err(Decline::Records);
    };
    Ok(try_position(game, table, budget, records))
}

// Stores the value of the current position.
fn store_value<G: Game, T: Table>(game: &G, table: &mut T, won: bool)
    ensures { T.standing table.new ≡ T.storing.stored (T.standing table.old) (code (G.current game.now)) (pair_of won) }
{
    table.store(&game.code(), Pair::of(won));
}

/// The trial that is never declined: what is known already, else the run with half of the budget, else the plain search with the rest.
/// The records may hold any pairs afterwards. By the rules of a trial it could answer nothing else, and leave the table standing nowhere else.
pub fn try_position<G: Game, T: Table>(
    game: &mut G,
    table: &mut T,
    budget: Budget,
    records: &mut Records,
) -> Answer
    ensures at { G.current game.new ≡ G.current game.old }
    ensures path { G.earlier game.new ≡ G.earlier game.old }
    ensures tried { Trial T.storing (T.standing table.old) (G.current game.old) budget.amount result (T.standing table.new) }
    ensures only { (a : Kept) (standing : T.storing.Standing) → Trial T.storing (T.standing table.old) (G.current game.old) budget.amount a standing
        → (a ≡ result) × (standing ≡ T.standing table.new) }
{
    if let Some(won) = known_value(game, table) {
        return Answer {
            verdict: Verdict::of(won),
            expansions: 0,
            entries: 0,
        };
    }
    let budget = budget.amount();
    let half = budget / 2;
    let share = budget - half;
    if let Some(given) = run(game, table, half, records) {
        return Answer {
            verdict: Verdict::of(given.won),
            expansions: half - given.left,
            entries: 0,
        };
    }
    match plain_search(game, share) {
        Some(found) => {
            store_value(game, table, found.won);
            Answer {
                verdict: Verdict::of(found.won),
                expansions: half,
                entries: found.entries,
            }
        }
        None => Answer {
            verdict: Verdict::Spent,
            expansions: half,
            entries: share,
        },
    }
}
