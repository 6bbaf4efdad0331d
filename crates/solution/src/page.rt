ghost use Rattle.std.specs.Prelude.{◌*◌, ◌≤◌, length};
ghost use Rattle.solution.specs.Limits.{buffer_limit};

/// The lines written so far, eight bytes each from the buffer's start on: how many they are, and among them the keys and the duals.
#[derive(Drop)]
pub(crate) struct Page<'a> {
    pub buffer: &'a mut [u8],
    pub lines: usize,
    pub keys: usize,
    pub duals: usize,
    ghost short: { length buffer.now ≤ buffer_limit },
    ghost fitting: { 8 * lines ≤ length buffer.now },
    ghost keys_among: { keys ≤ lines },
    ghost duals_among: { duals ≤ lines },
}

/// The refusal of a line that does not fit into the buffer.
#[derive(Clone, Copy, PartialEq, Eq, Debug)]
pub(crate) struct Full;
