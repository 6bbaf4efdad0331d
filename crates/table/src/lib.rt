#![tactic(auto)]

ghost use Rattle.std.specs.Prelude.{◌≡◌, ◌⊎◌, Some, None, ◌≢◌};
ghost use Rattle.table.specs.declared.pair.Pair.{Pair};
ghost use Rattle.table.specs.Pairs.{Code};
ghost use Rattle.table.specs.Storings.{Storing, Keeping};

mod figures;
mod newest;
mod none;
mod numbers;
mod pair;
mod side;

pub use figures::Figures;
pub use newest::{Newest, slot_of};
pub use none::NoTable;
pub use numbers::{TOP, capped_sum};
pub use pair::Pair;
pub use side::Side;

/// A transposition table: from codes to pairs. Where it stands may be more than the pairs that it shows; every answer, and where it stands
/// after a call, follow from where it stood before and from the arguments.
pub trait Table: Sized {
    // where such a table can stand, what it then shows, and where a store and a clear leave it
    ghost storing: { Storing };

    // where a table stands
    ghost standing: { Self → storing.Standing };

    /// The pair that is shown for a code: `None` where there is none.
    fn look_up(&self, code: &[u64; 5]) -> Option<Pair>
        ensures { result ≡ storing.shows (standing self.now) code.now };

    /// Stores a pair for a code.
    fn store(&mut self, code: &[u64; 5], pair: Pair)
        ensures { standing self.new ≡ storing.stored (standing self.old) code.now pair };

    /// Empties the table.
    fn clear(&mut self)
        ensures { standing self.new ≡ storing.cleared (standing self.old) };

    // what stores and clears may change of what is shown
    ghost keeping: { Keeping storing };
}

/// Stores a pair, and says what is then shown of its code: the pair, what was shown before, or nothing.
pub fn remember<T: Table>(table: &mut T, code: &[u64; 5], pair: Pair) -> Option<Pair>
    ensures shows { result ≡ T.storing.shows (T.standing table.new) code.now }
    ensures stores { T.standing table.new ≡ T.storing.stored (T.standing table.old) code.now pair }
    ensures own { (result ≡ Some pair) ⊎ ((result ≡ T.storing.shows (T.standing table.old) code.now) ⊎ (result ≡ None)) }
    ensures others { (d : Code) → (code.now ≢ d) → (T.storing.shows (T.standing table.new) d ≡ T.storing.shows (T.standing table.old) d) ⊎ (T.storing.shows (T.standing table.new) d ≡ None) }
{
    table.store(code, pair);
    table.look_up(code)
}
