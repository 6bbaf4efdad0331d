use crate::command::{Choice, Request};
use crate::show;
use crate::words::move_text;
use game::Game;
use std::io;
use std::io::Write;
use table::{Pair, Table};
use tester::{Call, Reply, Tester};

/// The number of the move with that text: none where no move has it.
fn named<G: Game>(game: &G, text: &[u8]) -> Option<usize> {
    game.find(&move_text(text)?)
}

/// The number of the move with that text.
pub fn find<G: Game>(page: &mut Vec<u8>, game: &G, text: &[u8]) -> io::Result<()> {
    match named(game, text) {
        Some(number) => writeln!(page, "move {number}"),
        None => writeln!(page, "none"),
    }
}

/// The number of the move that is meant, for a call: one that no move has where the text is no move's, since a call takes a number and
/// declines it itself.
fn number<G: Game>(game: &G, choice: Choice<'_>) -> usize {
    match choice {
        Choice::Number(number) => number,
        Choice::Text(text) => named(game, text).unwrap_or(usize::MAX),
    }
}

/// The call that is requested.
fn requested<'a, G: Game>(game: &G, request: Request<'a>) -> Call<'a> {
    match request {
        Request::Set { aim, text } => Call::Set { text, aim },
        Request::Play(choice) => Call::Play(number(game, choice)),
        Request::Back => Call::TakeBack,
        Request::Trial(budget) => Call::Trial(budget),
        Request::Solution { intended, budget } => Call::Solution {
            intended: number(game, intended),
            budget,
        },
        Request::Clear => Call::Clear,
    }
}

/// The text of the move that a call plays.
fn played<G: Game>(game: &G, call: Call<'_>) -> Option<[u8; 5]> {
    if let Call::Play(number) = call {
        game.text(number)
    } else {
        None
    }
}

/// What is answered to a call that has nothing else to say.
fn done(page: &mut Vec<u8>, call: Call<'_>, text: Option<[u8; 5]>) -> io::Result<()> {
    match call {
        Call::Set { .. } => writeln!(page, "set"),
        Call::Play(_) => {
            page.write_all(b"played ")?;
            show::line(page, &text.unwrap_or([b' '; 5]))
        }
        Call::TakeBack => writeln!(page, "back"),
        Call::Clear => writeln!(page, "cleared"),
        // These have answers of their own.
        Call::Trial(_) | Call::Solution { .. } => Ok(()),
    }
}

/// Performs the call that is requested on the tester, as a list of one, and shows what it answers; the lines of a solution come first.
pub fn perform<G: Game, T: Table>(
    page: &mut Vec<u8>,
    tester: &mut Tester<G, T>,
    request: Request<'_>,
    records: &mut [Pair],
    buffer: &mut [u8],
) -> io::Result<()> {
    let call = requested(tester.game(), request);
    let text = played(tester.game(), call);
    let mut replies = [Reply::Done];
    tester.perform(&[call], records, buffer, &mut replies);
    let [reply] = replies;
    match reply {
        Reply::Done => done(page, call, text),
        Reply::NotSet(decline) => writeln!(
            page,
            "declined {} at {}",
            decline.cause.number(),
            decline.place
        ),
        Reply::Declined(cause) => writeln!(page, "declined {}", cause.number()),
        Reply::Tried(answer) => show::answer(page, answer),
        Reply::Solved(solution) => show::solution(page, solution, buffer),
    }
}
