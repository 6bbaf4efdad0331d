ghost use Rattle.std.specs.Prelude.{◌≡◌, ℕ, ◌<◌, ◌≤◌, length, Ok, Err, MatchResult};
ghost use Rattle.form.specs.Forms.{Departs, reading};
ghost use Rattle.chess_text.specs.Diagrams.{Stands, Texts};
ghost use Rattle.chess_text.specs.Reading.{form as rule, IsFit as OnBoard, row_step, square_step};
ghost use Rattle.chess_text.specs.Steps;

use crate::letters;
use crate::reader::{Awaits, Reader};
use board::Square;
use chess_attacks::Side;
use chess_moves::Diagram;
use form::Form;

impl Reader {
    // A full row is followed by the next one, or by the side to move.
    fn row_over(self, row: u8, byte: u8) -> Option<Reader>
        ensures { result ≡ row_step row self.board self.mover self.passing byte }
    {
        let awaits = match byte as char {
            '/' if row > 0 => Awaits::Squares {
                row: row - 1,
                left: 8,
                digit: false,
            },
            ' ' if row == 0 => Awaits::Mover,
            _ => return None,
        };
        Some(Reader { awaits, ..self })
    }

    // A man on the next square, or a run of empty ones.
    fn square(self, row: u8, left: u8, digit: bool, byte: u8) -> Option<Reader>
        requires { (row < 8) × ((left ≤ 8) × ((0 < left) × (length self.board ≡ 64))) }
        ensures { result ≡ square_step row left digit self.board self.mover self.passing byte }
    {
        if let Some(man) = letters::man(byte) {
            let mut board = self.board;
            board[row as usize * 8 + (8 - left as usize)] = Some(man);
            let awaits = Awaits::Squares {
                row,
                left: left - 1,
                digit: false,
            };
            return Some(Reader {
                awaits,
                board,
                ..self
            });
        }
        let run = letters::run(byte)?;
        if digit || run > left {
            return None;
        }
        let awaits = Awaits::Squares {
            row,
            left: left - run,
            digit: true,
        };
        Some(Reader { awaits, ..self })
    }
}

impl Form for Reader {
    type Content = Diagram;

    ghost form = { rule };

    ghost fit = { OnBoard };

    ghost lively = { Steps.lively };

    #[tactic(auto, unfolding(crate::specs::Reading::empty))]
    fn first() -> Reader {
        Reader {
            awaits: Awaits::Squares {
                row: 7,
                left: 8,
                digit: false,
            },
            board: [None; 64],
            mover: Side::White,
            passing: None,
        }
    }

    // Where a byte leads: the states that await a square or a letter take any byte, and ask whether it is one.
    fn next(mut self, byte: u8) -> Option<Reader> {
        self.awaits = match (self.awaits, byte as char) {
            (Awaits::Squares { row, left: 0, .. }, _) => return self.row_over(row, byte),
            (Awaits::Squares { row, left, digit }, _) => return self.square(row, left, digit, byte),
            (Awaits::Mover, _) => {
                self.mover = letters::side(byte)?;
                Awaits::GapToRights
            }
            (Awaits::GapToRights, ' ') => Awaits::Rights,
            (Awaits::Rights, '-') => Awaits::GapToPassing,
            (Awaits::GapToPassing, ' ') => Awaits::Passing,
            (Awaits::Passing, '-') => {
                self.passing = None;
                Awaits::Blanks
            }
            (Awaits::Passing, _) => Awaits::PassingRow {
                file: letters::file(byte)?,
            },
            (Awaits::PassingRow { file }, '3' | '6') => {
                self.passing = Square::at(file, byte - b'1');
                Awaits::Blanks
            }
            (Awaits::Blanks, ' ') => Awaits::Blanks,
            (
                Awaits::GapToRights
                | Awaits::Rights
                | Awaits::GapToPassing
                | Awaits::PassingRow { .. }
                | Awaits::Blanks,
                _,
            ) => return None,
        };
        Some(self)
    }

    fn content(self) -> Option<Diagram> {
        matches!(self.awaits, Awaits::Blanks).then_some(Diagram {
            board: self.board,
            mover: self.mover,
            passing: self.passing,
        })
    }
}

/// The diagram that a text stands for, or the place where the text departs from its form: how many of its bytes
/// the text of some diagram begins with.
pub fn read(text: &[u8]) -> Result<Diagram, usize>
    ensures exact { result ≡ reading rule text.now }
    ensures meaning { MatchResult result (λ d. Stands text.now d) (λ n. Departs Texts text.now n) }
    ensures taken { (d : Diagram) → Stands text.now d → result ≡ Ok d }
    ensures refused { (n : ℕ) → Departs Texts text.now n → result ≡ Err n }
{
    // one reader for all forms; what is said of it above is in the words of this one
    form::read::<Reader>(text)
}
