ghost use Rattle.std.specs.Prelude.{◌≡◌};
ghost use Rattle.table.specs.Pairs.{other};

/// Who is to move: the attacker wants to bring the proof number to 0, the defender the disproof number.
#[derive(Clone, Copy, PartialEq, Eq, Debug)]
pub enum Side {
    Attacker,
    Defender,
}

impl Side {
    /// The other side.
    pub fn other(self) -> Side
        ensures { result ≡ other self }
    {
        match self {
            Side::Attacker => Side::Defender,
            Side::Defender => Side::Attacker,
        }
    }
}
