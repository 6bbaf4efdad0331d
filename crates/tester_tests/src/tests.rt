// Lists of calls on testers over a pile of stones, where each move takes one or two and whoever takes the last wins. The replies are counted
// by hand. With the attacker to move, a pile is won exactly when its stones are no multiple of three; with the defender to move, exactly when
// they are. A fresh game has four stones, and the attacker to move.
use game::{Decline, Game, SetDecline};
use search_laws::{Answer, Verdict};
use solution::Solution;
use solution_laws::Ending;
use std::alloc::{AllocError, Global};
use std::process::Abort;
use std::test::Fail;
use stones::Stones;
use table::{Newest, NoTable, Pair, Table};
use table_tests::TwoWays;
use tester::{Call, Reply, Round, Tester};

const ENOUGH: usize = 6144;

/// A call with what it is lent, so many pair records and a buffer, and what it is to answer and to leave in the buffer.
#[derive(Clone, Copy)]
struct Case<'a> {
    call: Call<'a>,
    records: usize,
    buffer: &'a [u8],
    reply: Reply,
    left: &'a [u8],
}

impl<'a> Case<'a> {
    /// A call that is lent records enough and no buffer.
    fn new(call: Call<'a>, reply: Reply) -> Self {
        Case::with_buffer(call, &[], reply, &[])
    }

    /// A call that is lent records enough and a buffer.
    fn with_buffer(call: Call<'a>, buffer: &'a [u8], reply: Reply, left: &'a [u8]) -> Self {
        Case {
            call,
            records: ENOUGH,
            buffer,
            reply,
            left,
        }
    }

    /// A declined call, which leaves what it is lent as it was.
    fn declined(call: Call<'a>, records: usize, buffer: &'a [u8], cause: Decline) -> Self {
        Case {
            call,
            records,
            buffer,
            reply: Reply::Declined(cause),
            left: buffer,
        }
    }

    /// A text that is not set up.
    fn refused(text: &'a [u8], aim: u32, cause: Decline, place: usize) -> Self {
        Case::new(
            Call::Set { text, aim },
            Reply::NotSet(SetDecline { cause, place }),
        )
    }
}

fn solution<'a>(intended: usize, budget: u32) -> Call<'a> {
    Call::Solution { intended, budget }
}

fn tried(verdict: Verdict, expansions: u32, entries: u32) -> Reply {
    Reply::Tried(Answer {
        verdict,
        expansions,
        entries,
    })
}

fn solved(ending: Ending, lines: usize, keys: usize, sum: u64) -> Reply {
    Reply::Solved(Solution {
        ending,
        lines,
        keys,
        duals: 0,
        sum,
    })
}

/// Runs the calls, each with its own records and buffer, and compares what they answer and leave.
fn run<T: Table + Drop>(
    rt: &impl Abort,
    alloc: Global,
    table: T,
    cases: &[Case<'_>],
) -> Result<(), AllocError> {
    let mut rounds = Vec::new(alloc);
    for case in cases {
        rounds.push(Round {
            call: case.call,
            records: vec![in alloc; Pair::FRESH; case.records]?,
            buffer: case.buffer.to_vec(alloc)?,
            reply: Reply::Done,
        })?;
    }
    let _tester = Tester::<Stones, T>::run(table, &mut rounds);
    for (i, (round, case)) in rounds.iter().zip(cases).enumerate() {
        assert_eq!(rt; round.reply, case.reply, "round {i}");
        assert_eq!(rt; round.buffer.as_slice(), case.left, "round {i}");
    }
    Ok(())
}

#[test]
fn trials(rt: HostRuntime) -> Result<(), Fail> {
    let cases = [
        Case::new(Call::Trial(0), tried(Verdict::Spent, 0, 0)),
        Case::new(Call::Trial(8), tried(Verdict::Spent, 4, 4)),
        Case::new(Call::Trial(9), tried(Verdict::Won, 4, 5)),
        Case::new(Call::Trial(12), tried(Verdict::Won, 6, 0)),
        // two stones, and the defender takes both
        Case::new(Call::Play(1), Reply::Done),
        Case::new(Call::Trial(1), tried(Verdict::Spent, 0, 1)),
        Case::new(Call::Trial(2), tried(Verdict::NotWon, 1, 0)),
        Case::new(Call::Play(1), Reply::Done),
        Case::new(Call::Trial(0), tried(Verdict::NotWon, 0, 0)),
        Case::new(Call::TakeBack, Reply::Done),
        Case::new(Call::TakeBack, Reply::Done),
        Case::new(Call::Trial(99_999_999), tried(Verdict::Won, 6, 0)),
    ];
    run(&rt, rt.alloc(), NoTable, &cases)?;
    Ok(())
}

// What trials find is kept until a clear: a set, a play and a take-back leave the table as it is.
fn kept() -> [Case<'static>; 12] {
    [
        Case::new(Call::Trial(4), tried(Verdict::Spent, 2, 2)),
        Case::new(Call::Trial(6), tried(Verdict::Spent, 3, 3)),
        Case::new(Call::Trial(8), tried(Verdict::Won, 4, 0)),
        Case::new(Call::Trial(0), tried(Verdict::Won, 0, 0)),
        Case::new(Call::Clear, Reply::Done),
        Case::new(Call::Trial(8), tried(Verdict::Spent, 4, 4)),
        Case::new(Call::Set { text: b"4", aim: 0 }, Reply::Done),
        Case::new(Call::Trial(8), tried(Verdict::Won, 4, 0)),
        Case::new(Call::Play(0), Reply::Done),
        Case::new(Call::Trial(0), tried(Verdict::Won, 0, 0)),
        Case::new(Call::TakeBack, Reply::Done),
        Case::new(Call::Trial(0), tried(Verdict::Won, 0, 0)),
    ]
}

#[test]
fn trials_with_the_newest(rt: HostRuntime) -> Result<(), Fail> {
    run(&rt, rt.alloc(), Newest::new(), &kept())?;
    Ok(())
}

#[test]
fn trials_with_two_ways(rt: HostRuntime) -> Result<(), Fail> {
    run(&rt, rt.alloc(), TwoWays::new(), &kept())?;
    Ok(())
}

// What a table shows before the making is gone, as here that the fresh pile is not won.
#[test]
fn the_table_is_cleared(rt: HostRuntime) -> Result<(), Fail> {
    let mut table = Newest::new();
    table.store(&[4, 1, 0, 0, 0], Pair::NOT_WON);
    let cases = [Case::new(Call::Trial(9), tried(Verdict::Won, 4, 5))];
    run(&rt, rt.alloc(), table, &cases)?;
    Ok(())
}

// What a solution of the fresh pile writes: the defender has two replies to the first line, and the attacker one winning move after each.
const LINES: &[u8] = b"01!take102.take103!take202.take203!take1";

#[test]
fn solutions_cut_and_spent(rt: HostRuntime) -> Result<(), Fail> {
    let first = solution(0, 100);
    let spent = solution(0, 4);
    let cases = [
        Case::with_buffer(
            first,
            &[b'-'; 24],
            solved(Ending::Cut, 3, 1, 5),
            b"01!take102.take103!take2",
        ),
        Case::with_buffer(
            first,
            &[b'-'; 16],
            solved(Ending::Cut, 2, 1, 5),
            b"01!take102.take1",
        ),
        Case::with_buffer(first, &[b'-'; 8], solved(Ending::Cut, 1, 1, 4), b"01!take1"),
        Case::new(first, solved(Ending::Cut, 0, 0, 4)),
        Case::with_buffer(
            spent,
            &[b'-'; 8],
            solved(Ending::Spent, 0, 0, 4),
            b"--------",
        ),
    ];
    run(&rt, rt.alloc(), NoTable, &cases)?;
    Ok(())
}

#[test]
fn solutions(rt: HostRuntime) -> Result<(), Fail> {
    let first = solution(0, 100);
    let second = solution(1, 100);
    let cases = [
        Case::with_buffer(first, &[b'-'; 40], solved(Ending::Done, 5, 1, 5), LINES),
        Case::with_buffer(second, &[b'-'; 40], solved(Ending::Done, 5, 1, 5), LINES),
        Case::new(Call::Set { text: b"3", aim: 0 }, Reply::Done),
        Case::with_buffer(
            first,
            &[b'-'; 8],
            solved(Ending::Done, 0, 0, 2),
            b"--------",
        ),
        Case::new(Call::Set { text: b"2", aim: 0 }, Reply::Done),
        Case::with_buffer(
            first,
            &[b'-'; 16],
            solved(Ending::Done, 1, 1, 1),
            b"01!take2--------",
        ),
    ];
    run(&rt, rt.alloc(), NoTable, &cases)?;
    Ok(())
}

// What a solution finds of the successors serves the calls after it until a clear, a spent one's findings too. It keeps nothing of its start.
#[test]
fn solutions_with_two_ways(rt: HostRuntime) -> Result<(), Fail> {
    let cases = [
        Case::with_buffer(
            solution(0, 100),
            &[b'-'; 40],
            solved(Ending::Done, 5, 1, 5),
            LINES,
        ),
        Case::with_buffer(
            solution(1, 0),
            &[b'-'; 40],
            solved(Ending::Done, 5, 1, 0),
            LINES,
        ),
        Case::new(Call::Trial(0), tried(Verdict::Spent, 0, 0)),
        Case::new(Call::Trial(2), tried(Verdict::Won, 1, 0)),
        Case::with_buffer(
            solution(0, 0),
            &[b'-'; 16],
            solved(Ending::Cut, 2, 1, 0),
            b"01!take102.take1",
        ),
        Case::new(Call::Clear, Reply::Done),
        Case::with_buffer(
            solution(0, 4),
            &[b'-'; 8],
            solved(Ending::Spent, 0, 0, 4),
            b"--------",
        ),
        Case::with_buffer(
            solution(0, 8),
            &[b'-'; 40],
            solved(Ending::Done, 5, 1, 4),
            LINES,
        ),
        Case::new(Call::Play(0), Reply::Done),
        Case::new(Call::Trial(0), tried(Verdict::Won, 0, 0)),
        // three stones with the attacker to move, which no trial above has met
        Case::new(Call::Set { text: b"3", aim: 0 }, Reply::Done),
        Case::new(Call::Trial(0), tried(Verdict::Spent, 0, 0)),
    ];
    run(&rt, rt.alloc(), TwoWays::new(), &cases)?;
    Ok(())
}

// A declined call changes nothing: after these the fresh pile has its trial and its first line.
#[test]
fn declined_calls(rt: HostRuntime) -> Result<(), Fail> {
    let first = solution(0, 100);
    let no_move = solution(2, 100);
    let too_great = solution(2, 100_000_000);
    let too_long = vec![in rt.alloc(); b'-'; 32_776]?;
    let cases = [
        Case::declined(Call::Trial(100_000_000), 0, &[], Decline::Budget),
        Case::declined(Call::Trial(99_999_999), 6143, &[], Decline::Records),
        Case::declined(too_great, 6143, b"-------", Decline::Budget),
        Case::declined(first, 6143, b"-------", Decline::Records),
        Case::declined(no_move, ENOUGH, b"-------", Decline::Buffer),
        Case::declined(first, ENOUGH, &too_long, Decline::Buffer),
        Case::declined(no_move, ENOUGH, b"--------", Decline::MoveNumber),
        Case::declined(Call::Play(2), 0, &[], Decline::MoveNumber),
        Case::declined(Call::TakeBack, 0, &[], Decline::TakeBack),
        Case::refused(b"x", 1, Decline::Aim, 0),
        Case::refused(b"", 0, Decline::Form, 0),
        Case::refused(b"5", 0, Decline::Form, 0),
        Case::refused(b"44", 0, Decline::Form, 1),
        Case::new(Call::Play(0), Reply::Done),
        Case::declined(no_move, ENOUGH, b"--------", Decline::NotAttacker),
        Case::new(Call::TakeBack, Reply::Done),
        Case::new(Call::Trial(9), tried(Verdict::Won, 4, 5)),
        Case::with_buffer(
            first,
            b"--------",
            solved(Ending::Cut, 1, 1, 4),
            b"01!take1",
        ),
    ];
    run(&rt, rt.alloc(), NoTable, &cases)?;
    Ok(())
}

// As many calls are performed as there are places for replies; where there are more places, the others stay.
#[test]
fn calls_and_places(rt: HostRuntime) {
    let mut tester = Tester::<Stones, NoTable>::new(NoTable);
    let mut records = [Pair::FRESH; ENOUGH];
    let mut buffer = [b'-'; 16];
    let calls = [Call::Play(0), Call::Trial(8), Call::Play(0), Call::TakeBack];
    let mut replies = [Reply::Done; 2];
    assert_eq!(rt;
        tester.perform(&calls, &mut records, &mut buffer, &mut replies),
        2
    );
    assert_eq!(rt; replies, [Reply::Done, tried(Verdict::Won, 3, 0)]);
    assert_eq!(rt; tester.game().rank(), 3);

    let calls = [Call::TakeBack, solution(0, 100)];
    let stays = Reply::Declined(Decline::Empties);
    let mut replies = [stays; 3];
    assert_eq!(rt;
        tester.perform(&calls, &mut records, &mut buffer, &mut replies),
        2
    );
    assert_eq!(rt; replies, [Reply::Done, solved(Ending::Cut, 2, 1, 5), stays]);
    assert_eq!(rt; &buffer, b"01!take102.take1");
    assert_eq!(rt; tester.game().rank(), 4);
}
