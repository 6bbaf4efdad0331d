use arrayvec::ArrayVec;
use search::{Budget, RECORDS, Records};

/// What a solution is made with: the game and the table, each trial's budget and records, for each of the moves tried last, whether it wins,
/// and the sum of all expansions and entries so far.
#[derive(Drop)]
pub(crate) struct Solver<'g, 't, 'r, G, T> {
    pub game: &'g mut G,
    pub table: &'t mut T,
    pub budget: Budget,
    pub records: &'r mut Records,
    pub flags: ArrayVec<bool, RECORDS>,
    pub sum: u64,
}
