ghost use Rattle.tester.specs.Calls.{at, Reached};

use game::Game;
use table::Table;

/// A game, with the path from its first position to the current one, and a table of what searches found. Some list of calls that begins with
/// a making led to where they stand.
#[derive(Drop)]
pub struct Tester<G: Game, T: Table> {
    pub(crate) game: G,
    pub(crate) table: T,
    ghost reached: { ∥ Reached G.Game T.Table (at G.Game T.Table game table) ∥₁ },
}
