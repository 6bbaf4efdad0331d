#![tactic(auto)]

// How the cost of a trial grows with the empty squares of an Othello ending: what each trial used goes to standard error,
// its verdict, which an exhaustive search from outside has confirmed, to standard output.
use game::Game;
use othello::Othello;
use search_laws::Answer;
use std::io;
use table::{Newest, NoTable, Pair, Table};

/// An ending: its empty squares, the aim, and its text.
struct Ending {
    empties: u8,
    aim: u32,
    text: &'static [u8],
}

const ENDINGS: [Ending; 10] = [
    Ending {
        empties: 6,
        aim: 0,
        text: b"OXXXOOOOOXXX.XOOXOXXXXXOXXXOOXXOXXXXXOXOXXOOOOOO..X.XOOO.X.XXXOO X",
    },
    Ending {
        empties: 7,
        aim: 0,
        text: b"X.OXOOOO.XOXOO.O.OOOOOOOXOOXOXO.XOOOXXOOXOXXOXO.XXXXOOXXXOOOOO.X O",
    },
    Ending {
        empties: 8,
        aim: 12,
        text: b"OXOOO..OOXXOO.O.OXXOOOO.OXOXO.OXOOXXXXOXOOXXOOO.OOXXOOO.XXXXXOOO X",
    },
    Ending {
        empties: 8,
        aim: 13,
        text: b"OXOOO..OOXXOO.O.OXXOOOO.OXOXO.OXOOXXXXOXOOXXOOO.OOXXOOO.XXXXXOOO X",
    },
    Ending {
        empties: 9,
        aim: 12,
        text: b"X.XXO.X.XXXXXXXXXXXXX.X.OOOXOX...OXXXXXXOXOXXXXOOOOOOXXOOO.OOXXO O",
    },
    Ending {
        empties: 9,
        aim: 13,
        text: b"X.XXO.X.XXXXXXXXXXXXX.X.OOOXOX...OXXXXXXOXOXXXXOOOOOOXXOOO.OOXXO O",
    },
    Ending {
        empties: 10,
        aim: 14,
        text: b"XO.X.O...XOXXOOOOOXOOOOOOOOOOOXXOOOOXOXXOXXXOXOXOXOOXO..XXXXX... X",
    },
    Ending {
        empties: 10,
        aim: 15,
        text: b"XO.X.O...XOXXOOOOOXOOOOOOOOOOOXXOOOOXOXXOXXXOXOXOXOOXO..XXXXX... X",
    },
    Ending {
        empties: 11,
        aim: 20,
        text: b"OX.OOO.OXXXXXOXXXXOXXOX.XXXOXXX.XXXOOX..XXOXXO.O.XOOOOOO.X.OXX.O O",
    },
    Ending {
        empties: 12,
        aim: 0,
        text: b"OOO.O.XOOOOXXXXXOXOXOOXXOOOOO.O.O.OXO.XO.OXXXXX..XXXX.O.XXXXXX.O X",
    },
];

/// The budget of each trial.
const BUDGET: u32 = 20_000_000;

/// A trial of the game's position, from an empty table.
fn tried<T: Table + Drop>(
    game: &mut Othello,
    mut table: T,
    records: &mut [Pair],
) -> Option<Answer> {
    table.clear();
    search::trial(game, &mut table, BUDGET, records).ok()
}

/// One policy's answer.
fn report<T: Table + Drop>(
    rt: &HostRuntime,
    policy: &str,
    ending: &Ending,
    table: T,
    records: &mut [Pair],
) -> io::Result<()> {
    let mut game = <Othello as Game>::fresh();
    if game.set(ending.text, ending.aim).is_err() {
        return println!(rt; "not set");
    }
    let Some(answer) = tried(&mut game, table, records) else {
        return println!(rt; "declined");
    };
    let Ending { empties, aim, .. } = ending;
    let Answer {
        verdict,
        expansions,
        entries,
    } = answer;
    println!(rt; "{empties} empty, aim {aim}, table {policy}: {verdict}")?;
    eprintln!(rt;
        "{empties} empty, aim {aim}, table {policy}: {expansions} expansions, {entries} entries"
    )
}

fn main(rt: HostRuntime) -> io::Result<()> {
    let heap = rt.alloc();
    let mut records = vec![in heap; Pair::FRESH; search::RECORDS]?;
    for ending in &ENDINGS {
        report(&rt, "none", ending, NoTable, &mut records)?;
        report(&rt, "newest", ending, Newest::new(), &mut records)?;
    }
    Ok(())
}
