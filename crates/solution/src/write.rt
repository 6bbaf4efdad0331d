ghost use Rattle.std.specs.Prelude.{◌≡◌, ◌+◌, ◌*◌, ◌<◌, ◌≤◌, [], ◌∷◌, ◌++◌, length, take, drop, slice_index_or};
ghost use Rattle.game.specs.Tree.{words};
ghost use Rattle.solution_laws.specs.Lines.{mark, bytes, is_key, is_dual};
ghost use Rattle.solution_laws.specs.Solution.{wins};
ghost use Rattle.solution.specs.Pages.{Writes};

use crate::page::{Full, Page};
use crate::ply::Ply;
use game::Game;
use solution_laws::Sign;

/// The byte of a sign: a match and no `Display`, since a line is eight bytes by its format.
fn sign_byte(sign: Sign) -> u8
    ensures { result ≡ mark sign }
{
    match sign {
        Sign::Chosen => b'!',
        Sign::Other => b'+',
        Sign::Reply => b'.',
    }
}

/// The eight bytes of a line.
fn line_bytes(ply: Ply, sign: Sign, text: &[u8; 5]) -> [u8; 8]
    ensures { result ≡ bytes (record { ply = ply.number; sign = sign; text = text.now }) }
{
    let [a, b, c, d, e] = *text;
    [
        b'0' + ply.number / 10,
        b'0' + ply.number % 10,
        sign_byte(sign),
        a,
        b,
        c,
        d,
        e,
    ]
}

/// Writes a line into the place of number n.
fn put_line(buffer: &mut [u8], n: usize, line: &[u8; 8])
    requires { 8 * n + 8 ≤ length buffer.old }
    ensures { buffer.new ≡ take (8 * n) buffer.old ++ (line.now ++ drop (8 * n + 8) buffer.old) }
{
    buffer[8 * n..8 * n + 8].copy_from_slice(line);
}

/// Whether a line is a key's: the attacker's, of ply 1.
fn is_key_line(ply: Ply, sign: Sign) -> bool
    ensures { result ≡ is_key (record { ply = ply.number; sign = sign; text = [] }) }
{
    ply == Ply::FIRST && sign != Sign::Reply
}

/// Whether a line is a dual's: of another winning move than the chosen one, of a later ply.
fn is_dual_line(ply: Ply, sign: Sign) -> bool
    ensures { result ≡ is_dual (record { ply = ply.number; sign = sign; text = [] }) }
{
    ply != Ply::FIRST && sign == Sign::Other
}

impl<'a> Page<'a> {
    /// Writes a line after those written, if it fits.
    fn write(&mut self, ply: Ply, sign: Sign, text: &[u8; 5]) -> Result<(), Full>
        ensures { Writes (record { ply = ply.number; sign = sign; text = text.now } ∷ []) self.old result self.new }
    {
        if self.lines >= self.buffer.len() / 8 {
            return Err(Full);
        }
        put_line(self.buffer, self.lines, &line_bytes(ply, sign, text));
        self.lines += 1;
        self.keys += usize::from(is_key_line(ply, sign));
        self.duals += usize::from(is_dual_line(ply, sign));
        Ok(())
    }

    /// Writes the line of the move number i, if it fits.
    pub(crate) fn write_move<G: Game>(
        &mut self,
        game: &G,
        ply: Ply,
        sign: Sign,
        i: usize,
    ) -> Result<(), Full>
        requires { i < length (words (G.current game.now)) }
        ensures { Writes (record { ply = ply.number; sign = sign; text = slice_index_or (words (G.current game.now)) i [] } ∷ []) self.old result self.new }
    {
        let text = game.text(i).unwrap();
        self.write(ply, sign, &text)
    }

    /// Writes the attacker's lines at a position, as far as they fit: the chosen move's, then those of the other winning ones.
    pub(crate) fn write_wins<G: Game>(
        &mut self,
        game: &G,
        ply: Ply,
        chosen: usize,
        flags: &[bool],
    ) -> Result<(), Full>
        requires number { chosen < length (words (G.current game.now)) }
        requires flags { length flags.now ≡ length (words (G.current game.now)) }
        ensures { Writes (wins ply.number chosen flags.now (words (G.current game.now))) self.old result self.new }
    {
        self.write_move(game, ply, Sign::Chosen, chosen)?;
        for (i, won) in flags.iter().enumerate() {
            if *won && i != chosen {
                self.write_move(game, ply, Sign::Other, i)?;
            }
        }
        Ok(())
    }
}
