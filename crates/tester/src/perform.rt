ghost use Rattle.tester.specs.Calls.{Does};
ghost use Rattle.tester.specs.Claims.{EveryListStands, OneWay};
ghost use Rattle.tester.specs.Performed.{asked, Performed};
ghost use Rattle.tester.specs.Stands.{stand};

use crate::call::Call;
use crate::reply::Reply;
use crate::tester::Tester;
use game::Game;
use table::{Pair, Table};

impl<G: Game, T: Table> Tester<G, T> {
    /// Makes one call, with these records and this buffer.
    pub(crate) fn call(&mut self, call: &Call<'_>, records: &mut [Pair], buffer: &mut [u8]) -> Reply
        ensures { Does G.Game T.Table (stand G.Game T.Table self.old) (asked call.now) (record { records = records.old; buffer = buffer.old }) result (record { records = records.new; buffer = buffer.new }) (stand G.Game T.Table self.new) }
    {
        match call {
            Call::Set { text, aim } => self.set(text, *aim).into(),
            Call::Play(i) => self.play(*i).into(),
            Call::TakeBack => self.take_back().into(),
            Call::Trial(budget) => self.trial(*budget, records).into(),
            Call::Solution { intended, budget } => {
                self.solution(*intended, *budget, records, buffer).into()
            }
            Call::Clear => {
                self.clear();
                Reply::Done
            }
        }
    }

    /// Performs calls in order, as many as there are places for their replies, each with these records and this buffer, and says how many.
    pub fn perform(
        &mut self,
        calls: &[Call<'_>],
        records: &mut [Pair],
        buffer: &mut [u8],
        replies: &mut [Reply],
    ) -> usize
        ensures performed { Performed G.Game T.Table calls.now (stand G.Game T.Table self.old) (record { records = records.old; buffer = buffer.old }) replies.old result (stand G.Game T.Table self.new) (record { records = records.new; buffer = buffer.new }) replies.new }
        ensures stands { EveryListStands G.Game T.Table }
        ensures one { OneWay G.Game T.Table }
    {
        let n = calls.len().min(replies.len());
        // By number: of what is written through `iter_mut` under a `zip` nothing is known after the loop.
        for (i, call) in calls[..n].iter().enumerate() {
            replies[i] = self.call(call, records, buffer);
        }
        n
    }
}
