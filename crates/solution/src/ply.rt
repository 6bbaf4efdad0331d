ghost use Rattle.std.specs.Prelude.{◌≡◌, ◌+◌, ◌<◌};

/// The ply of a solution's line, from 1: a line has two digits for it.
#[derive(Clone, Copy, PartialEq, Eq, Debug)]
pub(crate) struct Ply {
    pub number: u8,
    ghost from_one: { 0 < number },
    ghost two_digits: { number < 100 },
}

impl Ply {
    /// The ply of a solution's first lines.
    pub const FIRST: Ply = Ply { number: 1 };

    /// The ply that comes next.
    pub(crate) fn next(self) -> Ply
        requires { self.number < 99 }
        ensures { result.number ≡ self.number + 1 }
    {
        Ply {
            number: self.number + 1,
        }
    }
}
