ghost use Rattle.tester.specs.Rounds.{PerformedOne, PerformedAll};
ghost use Rattle.tester.specs.Stands.{stand};

use crate::round::Round;
use crate::tester::Tester;
use game::Game;
use table::Table;

impl<G: Game, T: Table> Tester<G, T> {
    /// Makes one call, with the records and the buffer of its round, and puts its reply in the round.
    fn perform_round(&mut self, round: &mut Round<'_>)
        ensures { PerformedOne G.Game T.Table (stand G.Game T.Table self.old) round.old round.new (stand G.Game T.Table self.new) }
    {
        round.reply = self.call(&round.call, &mut round.records, &mut round.buffer);
    }

    /// Makes a tester and performs a list of calls on it, in order, each with records, a buffer and a place for its reply of its own: so no call
    /// is left out.
    ///
    /// The table may stand anywhere: it is cleared, and a fresh game is started. Each call then starts from what the ones before it left, and
    /// is declined, or answers and leaves path, table and buffer, exactly as it is defined. At each call what holds of trials and solutions
    /// holds: a verdict of won or not won is minimax's, and stays the same with any larger budget; spent is said only where the plain search
    /// needs more than its share; each attacker's line is for a move that wins, and a solution that is done has a line for each key. No call
    /// could have gone another way, whatever the records hold.
    pub fn run(table: T, rounds: &mut [Round<'_>]) -> Self
        ensures { PerformedAll G.Game T.Table (T.standing table) rounds.old rounds.new (stand G.Game T.Table result) }
    {
        let mut tester = Tester::new(table);
        for round in rounds.iter_mut() {
            tester.perform_round(round);
        }
        tester
    }
}
