ghost use Rattle.std.specs.Prelude.{◌≡◌, true, IsTrue};
ghost use Rattle.game.specs.Tree.{minimax};
ghost use Rattle.tester.specs.Stands.{stand};

use game::Game;
use search_laws::Verdict;
use table::{Pair, Table};
use tester::Tester;

/// Whether a trial shows that the attacker wins the current position. The tester may come from anywhere, over every game and every table.
pub fn is_shown_won<G: Game, T: Table>(
    tester: &mut Tester<G, T>,
    budget: u32,
    records: &mut [Pair],
) -> bool
    ensures { IsTrue result → minimax (stand G.Game T.Table tester.old).current ≡ true }
{
    match tester.trial(budget, records) {
        Ok(answer) => answer.verdict == Verdict::Won,
        Err(_) => false,
    }
}
