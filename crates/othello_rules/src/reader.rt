use crate::side::Side;

// What comes next in a diagram's text.
#[derive(Clone, Copy)]
pub(crate) enum Awaits {
    Square(u8),
    Gap,
    Mover,
    Blanks(Side),
}

// The discs read so far, and what comes next.
#[derive(Clone, Copy)]
pub(crate) struct Reader {
    pub(crate) awaits: Awaits,
    pub(crate) x: u64,
    pub(crate) o: u64,
}
