use table::Side;

// A position of the plain search: the number of the next move to try, how many moves there are, and the side to move.
#[derive(Clone, Copy, Debug)]
pub(crate) struct Entry {
    pub next: usize,
    pub count: usize,
    pub side: Side,
}

// What the plain search does next: look at the current position, try the next move of the current position's entry, or go back with the
// side that has the current position: the attacker where it is won. The stack has the entries of the positions before the current one.
#[derive(Clone, Copy)]
pub(crate) enum Turn {
    Look,
    Try(Entry),
    Back(Side),
}

// What the plain search found: the position's value, and the entries that it took.
#[derive(Clone, Copy)]
pub(crate) struct Found {
    /// minimax's value
    pub won: bool,
    pub entries: u32,
}
