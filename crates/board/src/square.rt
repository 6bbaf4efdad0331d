ghost use Rattle.std.specs.Prelude.{◌≡◌, ◌<◌};

/// A square of the board by its number: file + 8 * row, files a to h and rows 1 to 8 counted from 0.
#[derive(Clone, Copy, PartialEq, Eq, Debug)]
pub struct Square {
    pub(crate) number: u8,
    ghost ok: { number < 64 },
}

/// The corner a1, to fill an array with.
impl Default for Square {
    ghost is_default = { λ s. s.number ≡ 0 };

    fn default() -> Square {
        Square { number: 0 }
    }
}
