ghost use Rattle.std.specs.Prelude.{◌≡◌, ℕ, ◌<◌, Ok, Err, MatchResult};
ghost use Rattle.form.specs.Forms.{Departs, reading};
ghost use Rattle.othello_rules.specs.Texts.{Stands, Texts};
ghost use Rattle.othello_rules.specs.Reading.{form as rule, step, IsFit as OnBoard};
ghost use Rattle.othello_rules.specs.declared.diagram.Diagram.{Diagram as TheDiagram};
ghost use Rattle.othello_rules.specs.Steps;

use crate::reader::{Awaits, Reader};
use crate::{Diagram, Side};
use form::Form;

impl Reader {
    // The mark of a square: the letter of its disc, or a dot.
    fn square(self, square: u8, byte: u8) -> Option<Reader>
        requires { square < 64 }
        ensures { result ≡ step (Awaits.Square square) self.x self.o byte }
    {
        let awaits = if square < 63 {
            Awaits::Square(square + 1)
        } else {
            Awaits::Gap
        };
        match byte as char {
            'X' => Some(Reader {
                awaits,
                x: self.x | 1 << square,
                ..self
            }),
            'O' => Some(Reader {
                awaits,
                o: self.o | 1 << square,
                ..self
            }),
            '.' => Some(Reader { awaits, ..self }),
            _ => None,
        }
    }
}

impl Form for Reader {
    type Content = Diagram;

    ghost form = { rule };

    ghost fit = { OnBoard };

    ghost lively = { Steps.lively };

    fn first() -> Reader {
        Reader {
            awaits: Awaits::Square(0),
            x: 0,
            o: 0,
        }
    }

    fn next(self, byte: u8) -> Option<Reader> {
        let awaits = match (self.awaits, byte as char) {
            (Awaits::Square(square), _) => return self.square(square, byte),
            (Awaits::Gap, ' ') => Awaits::Mover,
            (Awaits::Mover, 'X') => Awaits::Blanks(Side::X),
            (Awaits::Mover, 'O') => Awaits::Blanks(Side::O),
            (Awaits::Blanks(mover), ' ') => Awaits::Blanks(mover),
            (Awaits::Gap | Awaits::Mover | Awaits::Blanks(_), _) => return None,
        };
        Some(Reader { awaits, ..self })
    }

    fn content(self) -> Option<Diagram> {
        let Awaits::Blanks(mover) = self.awaits else {
            return None;
        };
        Some(Diagram {
            x: self.x,
            o: self.o,
            mover,
        })
    }
}

/// The diagram that a text stands for, or the place where the text departs from its form: how many of its bytes
/// the text of some diagram begins with.
pub fn read(text: &[u8]) -> Result<Diagram, usize>
    ensures exact { result ≡ reading rule text.now }
    ensures meaning { MatchResult result (λ d. Stands text.now d) (λ n. Departs Texts text.now n) }
    ensures taken { (d : TheDiagram) → Stands text.now d → result ≡ Ok d }
    ensures refused { (n : ℕ) → Departs Texts text.now n → result ≡ Err n }
{
    // one reader for all forms; what is said of it above is in the words of this one
    form::read::<Reader>(text)
}
