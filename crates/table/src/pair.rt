ghost use Rattle.std.specs.Prelude.{T};
ghost use Rattle.table.specs.Numbers.{well};

/// A proof number and a disproof number: won, not won, or both from 1 to TOP - 1.
#[derive(Clone, Copy, PartialEq, Eq, Debug)]
pub struct Pair {
    pub(crate) proof: u32,
    pub(crate) disproof: u32,
    ghost formed: { T (well proof disproof) },
}
