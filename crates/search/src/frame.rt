use search_laws::Thresholds;
use table::{Pair, Side};

// A frame of the run: where its successors' pairs stand in the records, its thresholds, the side to move, and the number of the
// successor that it has taken. The two bounds are no `Range`, which is not `Copy`, as an entry of the stack must be.
#[derive(Clone, Copy, Debug)]
pub(crate) struct Frame {
    pub base: usize,
    pub end: usize,
    pub thresholds: Thresholds,
    pub side: Side,
    pub chosen: usize,
}

// What the run does next: enter the current position with its thresholds, look at the current position's frame, or hand the current
// position's pair to the frame on top of the stack. The stack has the frames below, each of which waits for the pair of the successor
// that it has taken.
#[derive(Clone, Copy)]
pub(crate) enum Step {
    Enter(Thresholds),
    Work(Frame),
    Back(Pair),
}

// What a run gives where it is not stopped for want of an expansion: the start position's value, and how many expansions are left.
#[derive(Clone, Copy)]
pub(crate) struct Given {
    pub left: u32,
    /// minimax's value, where the table showed no false decided pair
    pub won: bool,
}
