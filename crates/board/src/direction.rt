ghost use Rattle.std.specs.Prelude.{◌≡◌, ℕ, ◌+◌, ◌*◌, ◌%◌, ◌<◌, ◌≤◌};
ghost use Rattle.board.specs.Squares.{opposite, reach, away};

/// The eight directions of a line: north is towards row 8, east towards file h.
#[derive(Clone, Copy, PartialEq, Eq, Debug)]
pub enum Direction {
    East,
    West,
    North,
    South,
    NorthEast,
    NorthWest,
    SouthEast,
    SouthWest,
}

impl Direction {
    /// All eight directions.
    pub const ALL: [Direction; 8] = [
        Direction::East,
        Direction::West,
        Direction::North,
        Direction::South,
        Direction::NorthEast,
        Direction::NorthWest,
        Direction::SouthEast,
        Direction::SouthWest,
    ];

    /// The direction that leads back.
    pub fn opposite(self) -> Direction
        ensures { result ≡ opposite self }
    {
        match self {
            Direction::East => Direction::West,
            Direction::West => Direction::East,
            Direction::North => Direction::South,
            Direction::South => Direction::North,
            Direction::NorthEast => Direction::SouthWest,
            Direction::NorthWest => Direction::SouthEast,
            Direction::SouthEast => Direction::NorthWest,
            Direction::SouthWest => Direction::NorthEast,
        }
    }

    // What one step adds to the number of a square, modulo 256.
    pub(crate) fn step(self) -> u8
        ensures { (s k : ℕ) → s < 64 → k ≤ reach self s → (s + k * result % 256) % 256 ≡ away self s k }
    {
        match self {
            Direction::East => 1,
            Direction::West => 255,
            Direction::North => 8,
            Direction::South => 248,
            Direction::NorthEast => 9,
            Direction::NorthWest => 7,
            Direction::SouthEast => 249,
            Direction::SouthWest => 247,
        }
    }
}
