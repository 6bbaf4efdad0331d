ghost use Rattle.tester.specs.Claims.{EveryListStands, OneWay, RecordsAreNotRead};

use game::Game;
use table::Table;

/// In every list of calls that begins with a making, over every game and every table, each call is right.
pub fn every_list_stands<G: Game, T: Table>()
    ensures { EveryListStands G.Game T.Table }
{}

/// From wherever a tester stands, each call has one outcome: what it answers, and what it leaves in path, table and buffer.
pub fn one_way<G: Game, T: Table>()
    ensures { OneWay G.Game T.Table }
{}

/// From wherever a tester stands, no call's outcome depends on what the pair records hold that it is lent: only on how many they are.
pub fn records_are_not_read<G: Game, T: Table>()
    ensures { RecordsAreNotRead G.Game T.Table }
{}
