ghost use Rattle.std.specs.Prelude.{◌≡◌, map};
ghost use Rattle.game.specs.Paths.{before};

use crate::{Decline, Game, Path, Played, Position, SetDecline, State};

impl<P: Position> Played<P> {
    /// The current position.
    pub fn current(&self) -> &P
        ensures { result.now ≡ self.now.path.current }
    {
        self.path.current()
    }
}

impl<P: Position> Game for Played<P> {
    ghost current = { λ g. P.tree g.path.current };

    ghost earlier = { λ g. map P.tree (before g.path) };

    ghost start = { P.start };

    ghost positions = { P.positions };

    ghost depth = { P.depth };

    ghost width = { P.width };

    ghost reading = { P.reading };

    ghost lawful = { P.lawful };

    ghost within = { λ g. P.within g.path.current };

    fn fresh() -> Self {
        Played {
            path: Path::new(P::fresh()),
        }
    }

    fn set(&mut self, text: &[u8], aim: u32) -> Result<(), SetDecline> {
        let position = P::read(text, aim)?;
        self.path = Path::new(position);
        Ok(())
    }

    fn state(&self) -> State {
        self.path.current.state()
    }

    fn count(&self) -> usize {
        self.path.current.count()
    }

    fn rank(&self) -> usize {
        self.path.current.rank()
    }

    fn code(&self) -> [u64; 5] {
        self.path.current.code()
    }

    fn text(&self, i: usize) -> Option<[u8; 5]> {
        self.path.current.text(i)
    }

    fn find(&self, text: &[u8; 5]) -> Option<usize> {
        self.path.current.find(text)
    }

    fn play(&mut self, i: usize) -> Result<(), Decline> {
        self.path.current.prepare();
        let next = self.path.current.after(i).ok_or(Decline::MoveNumber)?;
        self.path.advance(next).unwrap();
        Ok(())
    }

    fn take_back(&mut self) -> Result<(), Decline> {
        self.path.retreat().ok_or(Decline::TakeBack)?;
        Ok(())
    }
}
