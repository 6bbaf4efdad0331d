#![tactic(auto)]

ghost use Rattle.std.specs.Prelude.{◌≡◌, ◌≤◌, ◌^◌, MatchOption};
ghost use Rattle.chess_rules.specs.Lawful.{Lawful};
ghost use Rattle.perft.specs.Lines.{lines};

use chess_moves::Diagram;
use chess_rules::Position;
use std::io;
use std::io::{BufRead, BufReader, ErrorKind};
use std::time::Instant;

/// How many lines of so many legal moves there are from the diagram; none where they are 2^64 or more.
fn leaves(diagram: &Diagram, depth: u8) -> Option<u64>
    requires { Lawful diagram.now }
    ensures { MatchOption result (2 ^ 64 ≤ lines depth diagram.now) (λ n. n ≡ lines depth diagram.now) }
{
    if depth == 0 {
        return Some(1);
    }
    let list = chess_moves::moves(diagram);
    if depth == 1 {
        return Some(list.len() as u64);
    }
    let mut sum = 0u64;
    for step in list.as_slice() {
        let next = chess_moves::play(diagram, *step);
        sum = sum.checked_add(leaves(&next, depth - 1)?)?;
    }
    Some(sum)
}

/// Counts from a position at the depths from 1 on; how long the last took goes to standard error.
fn count(rt: &HostRuntime, position: &Position, most: u8) -> io::Result<()> {
    for depth in 1..=most {
        let start = Instant::now(rt)?;
        let Some(sum) = leaves(&position.diagram, depth) else {
            return Err(io::Error::new(ErrorKind::Unsupported, "2^64 lines or more"));
        };
        let spent = start.elapsed(rt)?.as_micros();
        println!(rt; "{depth} {sum}")?;
        eprintln!(rt; "depth {depth}: {sum} moves in {spent} microseconds")?;
    }
    Ok(())
}

/// A line of the input: a digit for the depth, a blank, and the text of a diagram that keeps the rules of a position.
fn answer(rt: &HostRuntime, line: &[u8]) -> io::Result<()> {
    let [digit @ b'1'..=b'9', b' ', text @ ..] = line else {
        return println!(rt; "no depth");
    };
    let diagram = match chess_text::read(text) {
        Ok(diagram) => diagram,
        Err(place) => return println!(rt; "the text departs at {place}"),
    };
    let Some(position) = Position::new(diagram) else {
        return Err(io::Error::new(
            ErrorKind::InvalidData,
            "the diagram breaks a rule of positions",
        ));
    };
    count(rt, &position, *digit - b'0')
}

fn main(rt: HostRuntime) -> io::Result<()> {
    for line in BufReader::new(rt.alloc(), rt.stdin())?.split(rt.alloc(), b'\n') {
        let line = line?;
        answer(&rt, &line)?;
    }
    Ok(())
}
