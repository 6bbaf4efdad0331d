use table::Pair;

/// How many pair records a trial asks for.
pub const RECORDS: usize = 6_144;

/// Pair records that are enough for a trial. `first_chunk_mut` lends them from a longer slice, and none from a shorter one.
pub type Records = [Pair; RECORDS];
