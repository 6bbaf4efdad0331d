ghost use Rattle.std.specs.Prelude.{◌≡◌, []};
ghost use Rattle.tester.specs.Calls as calls;
ghost use Rattle.tester.specs.Calls.{made, no_loan, Does};
ghost use Rattle.tester.specs.Claims.{Right};
ghost use Rattle.tester.specs.Replies.{set_reply, move_reply, trial_reply, solution_reply};
ghost use Rattle.tester.specs.Stands.{game_of, stand};
ghost use Rattle.tester.specs.declared.reply.Reply.TheVariants as replies;

use crate::tester::Tester;
use game::{Decline, Game, SetDecline};
use search::trial;
use search_laws::Answer;
use solution::{Solution, solve};
use table::{Pair, Table};

impl<G: Game, T: Table> Tester<G, T> {
    /// Makes a tester: takes a table, clears it and starts a fresh game.
    pub fn new(mut table: T) -> Self
        ensures { stand G.Game T.Table result ≡ made G.Game T.Table (T.standing table) }
    {
        table.clear();
        Tester {
            game: G::fresh(),
            table,
        }
    }

    /// The game, to ask about its current position.
    pub fn game(&self) -> &G
        ensures { result.now ≡ game_of G.Game T.Table self.now }
    {
        &self.game
    }

    /// Sets up what a text says under an aim: it is then the whole path. A refused text leaves the path. The table is kept.
    pub fn set(&mut self, text: &[u8], aim: u32) -> Result<(), SetDecline>
        ensures does { Does G.Game T.Table (stand G.Game T.Table self.old) (calls.set text.now aim) no_loan (set_reply result) no_loan (stand G.Game T.Table self.new) }
        ensures table { (stand G.Game T.Table self.new).standing ≡ (stand G.Game T.Table self.old).standing }
    {
        self.game.set(text, aim)
    }

    /// Plays a move: declined exactly where there is no move of that number, and the path stays. The table is kept.
    pub fn play(&mut self, i: usize) -> Result<(), Decline>
        ensures does { Does G.Game T.Table (stand G.Game T.Table self.old) (calls.play i) no_loan (move_reply result) no_loan (stand G.Game T.Table self.new) }
        ensures table { (stand G.Game T.Table self.new).standing ≡ (stand G.Game T.Table self.old).standing }
    {
        self.game.play(i)
    }

    /// Takes the last move back: declined exactly where the path has one position, and the path stays. The table is kept.
    pub fn take_back(&mut self) -> Result<(), Decline>
        ensures does { Does G.Game T.Table (stand G.Game T.Table self.old) calls.take_back no_loan (move_reply result) no_loan (stand G.Game T.Table self.new) }
        ensures table { (stand G.Game T.Table self.new).standing ≡ (stand G.Game T.Table self.old).standing }
    {
        self.game.take_back()
    }

    /// Empties the table. The path is kept.
    pub fn clear(&mut self)
        ensures does { Does G.Game T.Table (stand G.Game T.Table self.old) calls.clear no_loan replies.Done no_loan (stand G.Game T.Table self.new) }
        ensures at { (stand G.Game T.Table self.new).current ≡ (stand G.Game T.Table self.old).current }
        ensures path { (stand G.Game T.Table self.new).earlier ≡ (stand G.Game T.Table self.old).earlier }
    {
        self.table.clear();
    }

    /// A trial of the current position. A declined one changes nothing. The path is kept.
    pub fn trial(&mut self, budget: u32, records: &mut [Pair]) -> Result<Answer, Decline>
        ensures does { Does G.Game T.Table (stand G.Game T.Table self.old) (calls.trial budget) (record { records = records.old; buffer = [] }) (trial_reply result) (record { records = records.new; buffer = [] }) (stand G.Game T.Table self.new) }
        ensures at { (stand G.Game T.Table self.new).current ≡ (stand G.Game T.Table self.old).current }
        ensures path { (stand G.Game T.Table self.new).earlier ≡ (stand G.Game T.Table self.old).earlier }
        ensures right { Right G.Game T.Table (stand G.Game T.Table self.old) (calls.trial budget) (trial_reply result) (record { records = records.new; buffer = [] }) }
    {
        trial(&mut self.game, &mut self.table, budget, records)
    }

    /// A solution of the current position, with its lines in the buffer. A declined one changes nothing. The path is kept.
    pub fn solution(
        &mut self,
        intended: usize,
        budget: u32,
        records: &mut [Pair],
        buffer: &mut [u8],
    ) -> Result<Solution, Decline>
        ensures does { Does G.Game T.Table (stand G.Game T.Table self.old) (calls.solution intended budget) (record { records = records.old; buffer = buffer.old }) (solution_reply result) (record { records = records.new; buffer = buffer.new }) (stand G.Game T.Table self.new) }
        ensures at { (stand G.Game T.Table self.new).current ≡ (stand G.Game T.Table self.old).current }
        ensures path { (stand G.Game T.Table self.new).earlier ≡ (stand G.Game T.Table self.old).earlier }
        ensures right { Right G.Game T.Table (stand G.Game T.Table self.old) (calls.solution intended budget) (solution_reply result) (record { records = records.new; buffer = buffer.new }) }
    {
        solve(
            &mut self.game,
            &mut self.table,
            intended,
            budget,
            records,
            buffer,
        )
    }
}
