ghost use Rattle.std.specs.Prelude.{◌≡◌, ◌<◌, length, refl};
ghost use Rattle.std.specs.Borrow.{sem};
ghost use Rattle.table.specs.Loans.{LendsPlace};
ghost use Rattle.table.specs.Policies.{newest_storing};
ghost use Rattle.table.specs.Slots.{slot_of, in_slots};
ghost use Rattle.table.specs.Pairs.{nothing};
ghost use Rattle.std.proofs.Common.{inl};
ghost use Rattle.table.specs.Kept.{own_code, other_code};

use crate::{Pair, Table};

// One place of the table: the last pair stored there and the code that it is of.
#[derive(Clone, Copy)]
struct Slot {
    code: [u64; 5],
    pair: Option<Pair>,
}

/// 512 slots; a code has its pair in one of them, and a store overwrites what is there. The slots lie in the table itself.
#[derive(Drop)]
pub struct Newest {
    slots: [Slot; 512],
}

/// The number of the slot of a code, below 512: a mix of its five words.
#[tactic(auto, unfolding(crate::specs::Slots::slot_of, crate::specs::Slots::mixed, crate::specs::Slots::turned))]
pub fn slot_of(code: &[u64; 5]) -> usize
    ensures at { result ≡ slot_of code.now }
    ensures within { result < 512 }
{
    let mix = code.iter().fold(0u64, |mix, word| {
        (mix ^ word)
            .wrapping_mul(0x9e37_79b9_7f4a_7c15)
            .rotate_left(29)
    });
    (mix & 511) as usize
}

// Lends one of the slots, to be overwritten. It goes over the slice of them all: the kit follows no loan of an array's place through the struct
// that the array stands in.
fn lend(slots: &mut [Slot], i: usize) -> &mut Slot
    requires { i < length slots.old }
    ensures* { sem 𝓛 (LendsPlace slots.entry i result) }
{
    &mut slots[i]
}

impl Newest {
    /// A table that shows nothing.
    pub fn new() -> Newest
        ensures { ⟦<Newest as Table>⟧.standing result ≡ nothing }
    {
        let empty = Slot {
            code: [0; 5],
            pair: None,
        };
        Newest {
            slots: [empty; 512],
        }
    }
}

/// A table that shows nothing.
impl Default for Newest {
    ghost is_default = { λ t. ⟦<Newest as Table>⟧.standing t ≡ nothing };

    fn default() -> Newest {
        Newest::new()
    }
}

impl Table for Newest {
    ghost storing = { newest_storing };

    ghost standing = { λ t. in_slots t.slots };

    ghost keeping = { record { own = λ h c p. inl (own_code h c p); other = other_code; empties = λ _ _. refl } };

    fn look_up(&self, code: &[u64; 5]) -> Option<Pair> {
        let slot = &self.slots[slot_of(code)];
        if slot.code == *code { slot.pair } else { None }
    }

    fn store(&mut self, code: &[u64; 5], pair: Pair) {
        *lend(&mut self.slots, slot_of(code)) = Slot {
            code: *code,
            pair: Some(pair),
        };
    }

    fn clear(&mut self) {
        for slot in &mut self.slots {
            slot.pair = None;
        }
    }
}
