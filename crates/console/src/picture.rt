ghost use Rattle.std.specs.Prelude.{◌<◌};

use board::Square;
use chess::Chess;
use game::Game;
use othello::Othello;
use std::io;
use std::io::Write;

/// A game that can be shown to a person.
pub trait Picture: Game {
    /// Draws the board, and says who is to move and what is left to reach.
    fn draw(&self, page: &mut Vec<u8>) -> io::Result<()>;
}

const FILES: &[u8] = b"  a b c d e f g h\n";

/// A row of the board, counted from 0: its name, and a blank and a mark for each of its squares, which is the letter of what stands there or a
/// dot.
fn row<F: Fn(Square) -> Option<char>>(page: &mut Vec<u8>, row: u8, standing: F) -> io::Result<()>
    requires low { row < 8 }
    requires callable { F.IsAlwaysCallable standing }
{
    page.write_all(&[b'1' + row])?;
    for square in (0..8).filter_map(|file| Square::at(file, row)) {
        let mark = standing(square).unwrap_or('.');
        page.write_all(b" ")?;
        page.write_all(mark.encode_utf8(&mut [0; 4]).as_bytes())?;
    }
    page.write_all(b"\n")
}

impl Picture for Othello {
    /// Row 1 is the top row.
    fn draw(&self, page: &mut Vec<u8>) -> io::Result<()> {
        let position = othello::current(self);
        let diagram = position.diagram();
        page.write_all(FILES)?;
        // a row is its number: there is nothing else to go over
        for number in 0..8 {
            row(page, number, |square| {
                diagram.disc(square).map(|disc| disc.letter())
            })?;
        }
        writeln!(
            page,
            "{} to move, {} attacks, aim {}",
            diagram.mover,
            position.attacker(),
            position.aim()
        )
    }
}

impl Picture for Chess {
    /// Row 8 is the top row.
    fn draw(&self, page: &mut Vec<u8>) -> io::Result<()> {
        let problem = chess::current(self);
        let diagram = problem.diagram();
        // a row is its number: there is nothing else to go over
        for number in (0..8).rev() {
            row(page, number, |square| {
                diagram.board[square.number() as usize].map(|man| man.letter())
            })?;
        }
        page.write_all(FILES)?;
        if let Some(square) = diagram.passing {
            writeln!(page, "passed {square}")?;
        }
        writeln!(
            page,
            "{} to move, {} attacks, {} plies left",
            diagram.mover,
            problem.attacker(),
            problem.plies()
        )
    }
}
