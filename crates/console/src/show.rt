use game::Game;
use search_laws::Answer;
use solution::Solution;
use std::io;
use std::io::Write;

/// The bytes, and the end of a line.
pub fn line(page: &mut Vec<u8>, bytes: &[u8]) -> io::Result<()> {
    page.write_all(bytes)?;
    page.write_all(b"\n")
}

/// The state and the number of moves, then a line for each move: its number and its text.
pub fn moves<G: Game>(page: &mut Vec<u8>, game: &G) -> io::Result<()> {
    let count = game.count();
    writeln!(page, "{}, {count} moves", game.state())?;
    for (number, text) in (0..count).map_while(|number| game.text(number)).enumerate() {
        write!(page, "{number} ")?;
        line(page, &text)?;
    }
    Ok(())
}

/// A trial's verdict, expansions and entries.
pub fn answer(page: &mut Vec<u8>, answer: Answer) -> io::Result<()> {
    writeln!(
        page,
        "{} {} {}",
        answer.verdict, answer.expansions, answer.entries
    )
}

/// The lines of a solution, one a line, how it ended, and what it counted.
pub fn solution(page: &mut Vec<u8>, solution: Solution, buffer: &[u8]) -> io::Result<()> {
    for bytes in buffer.chunks(8).take(solution.lines) {
        line(page, bytes)?;
    }
    writeln!(
        page,
        "{} lines {} keys {} duals {} sum {}",
        solution.ending, solution.lines, solution.keys, solution.duals, solution.sum
    )
}

/// What was not understood.
pub fn unknown(page: &mut Vec<u8>, what: &[u8]) -> io::Result<()> {
    page.write_all(b"unknown: ")?;
    line(page, what)
}

/// The list of the commands.
pub fn help(page: &mut Vec<u8>) -> io::Result<()> {
    page.write_all(
        b"make GAME POLICY                          a fresh game: chess or othello; table policy none or newest
set AIM TEXT                              sets up a diagram
board                                     shows the position
moves                                     lists the moves
find TEXT                                 the number of the move with that text
play MOVE                                 plays a move, by number or text
back                                      takes the last move back
trial BUDGET [RECORDS]                    tries whether the attacker wins
solution MOVE BUDGET [BUFFER [RECORDS]]   the keys, duals and lines of play
clear                                     empties the table
help                                      this list
",
    )
}
